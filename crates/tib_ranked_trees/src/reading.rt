// Reads lists, candidates and rules.
ghost use Rattle.std.specs.Prelude.{◌≡◌, ℕ, ◌<◌, [], length, map, replicate, IfOk};
ghost use Rattle.std.proofs.Common.{get_or};
ghost use Rattle.tib_grammar.specs.Range.{SidesEndInHoles};
ghost use Rattle.tib_grammar.specs.Run.{rule_at};
ghost use Rattle.tib_ranked_trees.specs.Levels.{states_of};
ghost use Rattle.tib_ranked_trees.specs.ListsOf.{items_of};
ghost use Rattle.tib_ranked_trees.specs.Seen.{tree_at};
ghost use Rattle.tib_ranked_trees.specs.Held.{candidate_at, empty_lists, list_of, ranks_from, IsSound, IsTuple};

use crate::lists::{Candidate, Entry, Lists};
use crate::shared::Shared;
use std::alloc::{AllocError, Global};
use tib_grammar::Rule;
use tib_tree::Labels;

// As many lists as there are states, each without an entry.
fn no_entries(alloc: Global, states: usize) -> Result<Vec<Vec<Entry>>, AllocError>
    ensures { IfOk result (λ v. map items_of v.items ≡ replicate states []) }
{
    let mut lists = Vec::with_capacity(alloc, states)?;
    for _state in 0..states {
        lists.push(Vec::new(alloc))?;
    }
    Ok(lists)
}

impl<'a> Lists<'a> {
    /// Lists over some rules, for this number of states, with no trees yet. `label_ranks` has the
    /// place of each label's text in order. Err if memory is refused. Cost: linear in the number of
    /// states.
    pub fn new(
        alloc: Global,
        rules: &'a [Rule<u32>],
        labels: &'a Labels,
        label_ranks: &'a [u32],
        states: usize,
    ) -> Result<Lists<'a>, AllocError>
        ensures { IfOk result (λ x. x ≡ empty_lists rules.now labels.now label_ranks.now states) }
    {
        Ok(Lists {
            rules,
            labels,
            label_ranks,
            trees: Shared::new(alloc),
            lists: no_entries(alloc, states)?,
            candidates: Vec::new(alloc),
            ranks: Vec::new(alloc),
        })
    }

    /// How many rules there are.
    pub fn rules(&self) -> usize
        ensures { result ≡ length self.now.rules }
    {
        self.rules.len()
    }

    /// How many states there are.
    pub fn states(&self) -> usize
        ensures { result ≡ length self.now.lists }
    {
        self.lists.len()
    }

    /// The trees of all lists by their numbers, and the list of a state. The rest is dropped. It
    /// takes no memory.
    pub fn into_list(self, state: u32) -> (Shared, Vec<Entry>)
        requires { state < length self.lists }
        ensures trees { result.0 ≡ self.entry.trees }
        ensures entries { result.1.items ≡ list_of self.entry state }
    {
        let Lists {
            trees,
            mut lists,
            ..
        } = self;
        let entries = lists.swap_remove(state as usize);
        (trees, entries)
    }

    /// The trees of all lists by their numbers, and the lists of all states. The rest is dropped.
    /// It takes no memory.
    pub fn into_lists(self) -> (Shared, Vec<Vec<Entry>>)
        ensures trees { result.0 ≡ self.entry.trees }
        ensures lists { map items_of result.1.items ≡ self.entry.lists }
    {
        let Lists { trees, lists, .. } = self;
        (trees, lists)
    }

    /// A candidate by its number.
    pub fn candidate(&self, number: u32) -> &Candidate
        requires { number < length self.now.candidates }
        ensures { result.now ≡ candidate_at self.now number }
    {
        &self.candidates[number as usize]
    }

    /// The state on the left-hand side of a rule.
    pub fn left(&self, rule: u32) -> u32
        requires { rule < length self.now.rules }
        ensures { result ≡ (rule_at self.now.rules rule).left }
    {
        self.rules[rule as usize].left
    }

    /// The i-th state below a rule.
    pub fn state(&self, rule: u32, i: usize) -> u32
        requires sound { IsSound self.now }
        requires rule { rule < length self.now.rules }
        requires below { i < length (states_of (rule_at self.now.rules rule)) }
        ensures same { result ≡ get_or (states_of (rule_at self.now.rules rule)) i 0 }
        ensures there { result < length self.now.lists }
    {
        self.rules[rule as usize].states_below()[i].state()
    }

    /// How many entries a state has.
    pub fn len(&self, state: u32) -> usize
        requires { state < length self.now.lists }
        ensures { result ≡ length (list_of self.now state) }
    {
        self.lists[state as usize].len()
    }

    /// The rank of the i-th state below a rule, in the ranks from `start` on.
    pub fn rank(&self, rule: u32, start: usize, i: usize) -> u32
        requires tuple { IsTuple self.now rule (ranks_from self.now rule start) }
        requires below { i < length (states_of (rule_at self.now.rules rule)) }
        ensures { result ≡ get_or (ranks_from self.now rule start) i 0 }
    {
        self.ranks[start + i]
    }

    /// No right-hand side has anything below a state. It changes nothing. Worst case: one step for
    /// each rule.
    pub fn end_in_states(&self)
        ensures { SidesEndInHoles self.now.rules }
    {
        for rule in self.rules {
            rule.right.items();
        }
    }

    /// Distinct numbers are distinct trees. It computes nothing.
    pub fn is_distinct(&self)
        ensures { (m n : ℕ) → m < length self.now.trees → n < length self.now.trees →
            tree_at self.now.trees m ≡ tree_at self.now.trees n → m ≡ n }
    {
        self.trees.is_distinct();
    }
}
