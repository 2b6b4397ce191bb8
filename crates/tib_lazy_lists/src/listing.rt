// A candidate's tree, appended to the list of its state.
ghost use Rattle.std.specs.Prelude.{◌≡◌, ◌<◌, false, length, IfOk, IsTrue, OnOk};
ghost use Rattle.std.specs.HashSet.{keys};
ghost use Rattle.tib_lex.specs.Lists.{Has};
ghost use Rattle.tib_ranked_trees.specs.Held.{candidate_at, IsCandidate, IsSound};
ghost use Rattle.tib_lazy_lists.specs.Asks.{IsListing, IsNoted};

use std::alloc::{AllocError, Global};
use std::collections::HashSet;
use tib_ranked_trees::{Entry, Lists};

// Notes that a state lists a tree, and says whether this is new.
pub(crate) fn note(
    listed: &mut HashSet<(u32, u32)>,
    state: u32,
    tree: u32,
) -> Result<bool, AllocError>
    ensures added { IfOk result (λ new. IsTrue new → Has (keys listed.old) (state, tree) → ⊥) }
    ensures stood { IfOk result (λ new. new ≡ false → Has (keys listed.old) (state, tree)) }
    ensures noted { OnOk result (IsNoted (keys listed.old) (state, tree) (keys listed.new)) }
{
    let new = listed.insert((state, tree))?;
    Ok(new)
}

// Appends the tree of a candidate to the list of a state, unless it is there.
pub(crate) fn list(
    alloc: Global,
    lists: &mut Lists,
    listed: &mut HashSet<(u32, u32)>,
    state: u32,
    candidate: u32,
) -> Result<(), AllocError>
    requires sound { IsSound lists.old }
    requires state { state < length lists.old.lists }
    requires below { candidate < length lists.old.candidates }
    requires is { IsCandidate lists.old (candidate_at lists.old candidate) }
    ensures { OnOk result (IsListing lists.old state candidate (keys listed.old) lists.new
        (keys listed.new)) }
{
    let rule = lists.candidate(candidate).rule;
    let start = lists.candidate(candidate).start;
    let cost = lists.candidate(candidate).cost;
    let tree = lists.tree_of(alloc, rule, start)?;
    lists.is_distinct();
    if !note(listed, state, tree)? {
        return Ok(());
    }
    lists.place(
        state,
        Entry {
            tree,
            cost,
            candidate,
        },
    )
}
