//! The walk over child places that lists the edges of a label and a rank, of those lists of
//! positions in which a position is last at one place.

ghost use Rattle.std.specs.Prelude.{◌≡◌, ℕ, ◌+◌, ◌-◌, ◌<◌, ◌≤◌, ◌^◌, ◌∷◌, ◌++◌, [], length, map, IfOk, IfSome, OnOk, Err};
ghost use Rattle.std.proofs.Common.{suc};
ghost use Rattle.tib_lex.specs.Lists.{Each, Has};
ghost use Rattle.tib_cost.specs.Semiring.{most};
ghost use Rattle.tib_grammar.specs.Forms.{AreNormal};
ghost use Rattle.tib_determinize.specs.Alive.{AreAlive, AreAscending, AreLeft, HasPlace};
ghost use Rattle.tib_determinize.specs.Holders.{AreHolders};
ghost use Rattle.tib_determinize.specs.Levels.{IsLevel, IsWanted, level_list, moved, past, pending_below};
ghost use Rattle.tib_determinize.specs.Stepped.{AddsSteps, IsUnderway, IsWithinBudget, StepsOverrun};
ghost use Rattle.tib_determinize.specs.Tries.{behind_label, first_at, many_at, under};
ghost use Rattle.tib_determinize.specs.Vectors.{Rises};

use crate::alive::{Alive, costs, narrow};
use crate::holders::Holders;
use crate::listing::VectorListing;
use crate::settling::settle;
use crate::vector::Vector;
use crate::wanted::{next_wanted, wanted_at};
use std::alloc::{AllocError, Global};
use tib_cost::Semiring;
use tib_expand::ExpandError;
use tib_grammar::Rule;
use tib_tree::Label;

/// What a walk goes over: the edges of a label over a number of vectors of an order, in which a
/// position is last at the place `last`. The holders have the positions of the order by the states
/// that are marked as wide.
#[derive(Clone, Copy)]
pub(crate) struct Walk<'w> {
    pub rules: &'w [Rule<u32>],
    pub order: &'w [Vector],
    pub wide: &'w [bool],
    pub holders: &'w Holders,
    pub label: Label,
    pub rank: u32,
    pub position: u32,
    pub last: u32,
}

/// The positions that are to be tried at a place, with those after it and the rules that are alive
/// there.
#[derive(Drop)]
pub(crate) struct Level {
    place: u32,
    behind: Vec<u32>,
    alive: Vec<Alive>,
    wanted: Vec<u32>,
    next: usize,
    end: usize,
}

// The first position at a place, and the one after the last.
fn range_at(walk: &Walk<'_>, place: u32) -> (usize, usize)
    requires { walk.now.position < length walk.now.order.now }
    ensures next { result.0 ≡ first_at walk.now.position walk.now.last place }
    ensures end { result.1 ≡ first_at walk.now.position walk.now.last place
        + many_at walk.now.position walk.now.last place }
    ensures within { result.1 ≤ length walk.now.order.now }
    ensures fits { result.1 ≤ 2 ^ 32 }
{
    let position = walk.position as usize;
    if place == walk.last {
        (position, position + 1)
    } else if walk.last < place {
        (0, position)
    } else {
        (0, position + 1)
    }
}

impl Level {
    /// The level of a place. Err only if memory is refused. Cost: that of `wanted_at`.
    pub fn new(
        alloc: Global,
        walk: &Walk<'_>,
        place: u32,
        behind: Vec<u32>,
        alive: Vec<Alive>,
    ) -> Result<Level, AllocError>
        requires position { walk.now.position < length walk.now.order.now }
        requires normal { AreNormal walk.now.rules.now }
        requires places { Each (HasPlace walk.now.rules.now place) alive.items }
        requires holders { AreHolders walk.now.wide.now walk.now.order.now
            walk.now.holders.now.lists.items }
        ensures place { IfOk result (λ l. l.place ≡ place) }
        ensures behind { IfOk result (λ l. l.behind ≡ behind) }
        ensures alive { IfOk result (λ l. l.alive ≡ alive) }
        ensures wanted { IfOk result (IsWanted walk.now.rules.now walk.now.order.now) }
        ensures next { IfOk result (λ l. l.next ≡ first_at walk.now.position walk.now.last place) }
        ensures end { IfOk result (λ l. l.end ≡ first_at walk.now.position walk.now.last place
            + many_at walk.now.position walk.now.last place) }
        ensures within { IfOk result (λ l. l.end ≤ length walk.now.order.now) }
        ensures fits { IfOk result (λ l. l.end ≤ 2 ^ 32) }
    {
        let wanted = wanted_at(alloc, walk, place, &alive)?;
        let (next, end) = range_at(walk, place);
        Ok(Level {
            place,
            behind,
            alive,
            wanted,
            next,
            end,
        })
    }

    // The level at the next of its positions that is wanted, or after the last one.
    fn skip(self) -> Level
        requires { AreAscending self.wanted.items }
        ensures level { result ≡ moved self result.next }
        ensures from { self.next ≤ result.next }
        ensures to { self.next ≤ self.end → result.next ≤ self.end }
        ensures between { (p : ℕ) → self.next ≤ p → p < result.next → Has self.wanted.items p → ⊥ }
    {
        let Level {
            place,
            behind,
            alive,
            wanted,
            next,
            end,
        } = self;
        let next = next_wanted(&wanted, next, end);
        Level {
            place,
            behind,
            alive,
            wanted,
            next,
            end,
        }
    }
}

// A position before others.
fn put_before(alloc: Global, position: u32, behind: &[u32]) -> Result<Vec<u32>, AllocError>
    ensures { IfOk result (λ positions. positions.items ≡ position ∷ behind.now) }
{
    let mut positions = Vec::new(alloc);
    positions.push(position)?;
    positions.extend_from_slice(behind)?;
    Ok(positions)
}

// Lists the edge of the label over the vectors at these positions, if it has a step.
pub(crate) fn list<S: Semiring>(
    alloc: Global,
    walk: &Walk<'_>,
    positions: &[u32],
    alive: &[Alive],
    listing: &mut VectorListing,
) -> Result<(), ExpandError>
    requires alive { AreAlive S.product walk.now.rules.now walk.now.order.now walk.now.label
        walk.now.rank 0 positions.now alive.now }
    requires normal { AreNormal walk.now.rules.now }
    requires rank { length positions.now ≡ walk.now.rank }
    requires within { IsWithinBudget listing.old }
    ensures added { OnOk result (AddsSteps S.product walk.now.rules.now walk.now.order.now
        ((walk.now.label, positions.now) ∷ []) listing.old listing.new) }
    ensures more { result ≡ Err ExpandError.More →
        StepsOverrun S.product walk.now.rules.now walk.now.order.now
        ((walk.now.label, positions.now) ∷ []) listing.old }
    ensures within { OnOk result (IsWithinBudget listing.new) }
    ensures budget { listing.new.budget ≡ listing.old.budget }
{
    let Ok(costs) = costs::<S>(alloc, walk.rules, alive) else {
        return Err(ExpandError::OutOfMemory);
    };
    match settle::<S>(alloc, costs) {
        Ok(Some(step)) => listing.add(alloc, walk.label, positions, step),
        Ok(None) => Ok(()),
        Err(_) => Err(ExpandError::OutOfMemory),
    }
}

// Tries the next position of a level: lists the edge of a whole list, or returns the level of the
// place before.
fn visit<S: Semiring>(
    alloc: Global,
    walk: &Walk<'_>,
    level: &Level,
    listing: &mut VectorListing,
) -> Result<Option<Level>, ExpandError>
    requires normal { AreNormal walk.now.rules.now }
    requires rise { Each (λ v. Rises v) walk.now.order.now }
    requires position { walk.now.position < length walk.now.order.now }
    requires level { IsLevel S.product walk.now.rules.now walk.now.order.now walk.now.label
        walk.now.rank walk.now.position walk.now.last level.now }
    requires next { level.now.next < level.now.end }
    requires holders { AreHolders walk.now.wide.now walk.now.order.now
        walk.now.holders.now.lists.items }
    requires within { IsWithinBudget listing.old }
    ensures underway { IfOk result (λ below.
        IsUnderway S.product walk.now.rules.now walk.now.order.now
        (behind_label walk.now.label (under walk.now.position walk.now.last level.now.place
        (level.now.next ∷ level.now.behind.items)))
        (behind_label walk.now.label (pending_below walk.now.position walk.now.last below))
        listing.old listing.new) }
    ensures level { IfOk result (λ below. IfSome below (IsLevel S.product walk.now.rules.now
        walk.now.order.now walk.now.label walk.now.rank walk.now.position walk.now.last)) }
    ensures few { IfOk result (λ below. IfSome below (λ l. (suc l.place ≡ level.now.place)
        × (l.end - l.next ≤ length walk.now.order.now))) }
    ensures more { result ≡ Err ExpandError.More →
        StepsOverrun S.product walk.now.rules.now walk.now.order.now
        (behind_label walk.now.label (under walk.now.position walk.now.last level.now.place
        (level.now.next ∷ level.now.behind.items))) listing.old }
    ensures within { OnOk result (IsWithinBudget listing.new) }
    ensures budget { listing.new.budget ≡ listing.old.budget }
{
    let place = level.place as usize;
    let vector = &walk.order[level.next];
    let Ok(alive) = narrow::<S>(alloc, walk.rules, place, vector, &level.alive) else {
        return Err(ExpandError::OutOfMemory);
    };
    if alive.is_empty() {
        return Ok(None);
    }
    let Ok(positions) = put_before(alloc, level.next as u32, &level.behind) else {
        return Err(ExpandError::OutOfMemory);
    };
    if place == 0 {
        match list::<S>(alloc, walk, &positions, &alive, listing) {
            Ok(()) => {}
            Err(fault) => return Err(fault),
        }
        return Ok(None);
    }
    match Level::new(alloc, walk, level.place - 1, positions, alive) {
        Ok(below) => Ok(Some(below)),
        Err(_) => Err(ExpandError::OutOfMemory),
    }
}

// Puts back a level, moved past its next position, and the one below on top of it.
fn push_levels(
    levels: &mut Vec<Level>,
    level: Level,
    below: Option<Level>,
) -> Result<(), AllocError>
    requires { level.next < 2 ^ 63 }
    ensures { OnOk result (levels.new.items ≡ levels.old.items ++ (past level ∷ level_list below)) }
{
    let Level {
        place,
        behind,
        alive,
        wanted,
        next,
        end,
    } = level;
    levels.push(Level {
        place,
        behind,
        alive,
        wanted,
        next: next + 1,
        end,
    })?;
    if let Some(below) = below {
        levels.push(below)?;
    }
    Ok(())
}

/// Lists the edges of a walk, of which these rules are alive after the last place. `More` comes
/// exactly where they have more parts than the budget leaves. Cost: for each list of positions that
/// some rule matches from some place on, the rules that match it there, with one search by halving
/// in a vector for each of them and each position that is wanted before it.
pub(crate) fn list_all<S: Semiring>(
    alloc: Global,
    walk: &Walk<'_>,
    alive: Vec<Alive>,
    listing: &mut VectorListing,
) -> Result<(), ExpandError>
    requires normal { AreNormal walk.now.rules.now }
    requires rise { Each (λ v. Rises v) walk.now.order.now }
    requires position { walk.now.position < length walk.now.order.now }
    requires rank { 1 ≤ walk.now.rank }
    requires holders { AreHolders walk.now.wide.now walk.now.order.now
        walk.now.holders.now.lists.items }
    requires alive { AreLeft S.product walk.now.rules.now walk.now.order.now walk.now.label
        walk.now.rank walk.now.position walk.now.last walk.now.rank [] alive.items }
    requires within { IsWithinBudget listing.old }
    ensures added { OnOk result (AddsSteps S.product walk.now.rules.now walk.now.order.now
        (behind_label walk.now.label (under walk.now.position walk.now.last walk.now.rank []))
        listing.old listing.new) }
    ensures more { result ≡ Err ExpandError.More → StepsOverrun S.product walk.now.rules.now
        walk.now.order.now
        (behind_label walk.now.label (under walk.now.position walk.now.last walk.now.rank []))
        listing.old }
    ensures within { OnOk result (IsWithinBudget listing.new) }
    ensures budget { listing.new.budget ≡ listing.old.budget }
{
    if alive.is_empty() {
        return Ok(());
    }
    let mut levels = Vec::new(alloc);
    let Ok(first) = Level::new(alloc, walk, walk.rank - 1, Vec::new(alloc), alive) else {
        return Err(ExpandError::OutOfMemory);
    };
    let Ok(()) = levels.push(first) else {
        return Err(ExpandError::OutOfMemory);
    };
    while let Some(whole) = levels.pop() {
        let level = whole.skip();
        if level.next >= level.end {
            continue;
        }
        let below = match visit::<S>(alloc, walk, &level, listing) {
            Ok(below) => below,
            Err(fault) => return Err(fault),
        };
        match push_levels(&mut levels, level, below) {
            Ok(()) => {}
            Err(_) => return Err(ExpandError::OutOfMemory),
        }
    }
    Ok(())
}
