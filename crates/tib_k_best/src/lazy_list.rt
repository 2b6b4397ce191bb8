// The best trees of a grammar that is deterministic below the root, with few entries for each.
ghost use Rattle.std.specs.Prelude.{◌≡◌, ℕ, ◌<◌, ◌≤◌, ◌+◌, ◌^◌, [], false, length, map, IfErr, IfNone, IfOk, IfSome};
ghost use Rattle.std.proofs.Common.{get_or};
ghost use Rattle.tib_grammar.specs.Forms.{AreNormal};
ghost use Rattle.tib_ranked_trees.specs.Below.{IsDeterministicBelow};
ghost use Rattle.tib_grammar.specs.Range.{AreInRange};
ghost use Rattle.tib_grammar.specs.Run.{rule_at};
ghost use Rattle.tib_grammar_file.specs.Printed.{AreLabelled};
ghost use Rattle.tib_ranked_trees.specs.Ranked.{AreRanksOf};
ghost use Rattle.tib_ranked_trees.specs.Best.{IsFrontAt, IsKBest};
ghost use Rattle.tib_ranked_trees.specs.Levels.{IsOrderly};
ghost use Rattle.tib_ranked_trees.specs.Pass.{no_entry};
ghost use Rattle.tib_ranked_trees.specs.Held.{IsSound};
ghost use Rattle.tib_lazy_lists.specs.Demands.{entries_held, nodes_of};
ghost use Rattle.tib_k_best.specs.Causes.{IsCause, IsUsefulCause};
ghost use Rattle.tib_k_best.specs.LazyLists.{entries_in, AreUsefulLists};
ghost use Rattle.tib_k_best.specs.Listing.{costed};
ghost use Rattle.tib_k_best.specs.Trimmed.{HaveTreesBelow};

use crate::asking::{Form, lists_of_rules};
use crate::error::KBestError;
use crate::laws::trimmed_has_trees;
use crate::level::{renamed, trimmed_rules};
use crate::levels::copied_rules;
use crate::listed::List;
use std::alloc::{AllocError, Global};
use std::marker::Model;
use tib_cost::{Cost, Semiring};
use tib_grammar::Rule;
use tib_normal::Normal;
use tib_ranked_trees::{Entry, Lists, Shared, label_ranks};
use tib_tree::{Labels, Tree};

/// The lists of the start and of each useful state, each from its best tree on: that of the start,
/// and of the others what was needed to make it.
#[derive(Drop)]
pub struct LazyList {
    trees: Shared,
    lists: Vec<Vec<Entry>>,
    steps: u64,
}

impl Model for LazyList {
    ghost use Rattle.std.specs.Prelude.{List as ListFor, map};
    ghost use Rattle.std.specs.Coded.{coded_list};
    ghost use Rattle.tib_ranked_trees.specs.Best.{Costed};
    ghost use Rattle.tib_ranked_trees.specs.ListsOf.{items_of};
    ghost use Rattle.tib_k_best.specs.LazyLists.{IsCounted};
    ghost use Rattle.tib_k_best.specs.Listing.{costed, costed_code};

    ghost Value = { ListFor (ListFor Costed) };

    ghost coded = { coded_list costed_code };

    ghost view = { λ l. map (costed l.trees) (map items_of l.lists.items) };

    ghost invariant = { λ l. IsCounted l.trees (map items_of l.lists.items) l.steps };
}

// How many entries all lists have together.
fn count_entries(lists: &Lists) -> u64
    requires sound { IsSound lists.now }
    requires few { length lists.now.lists < 2 ^ 32 }
    ensures { result ≡ entries_held lists.now }
{
    let mut entries: u64 = 0;
    for state in 0..lists.states() as u32 {
        entries += lists.len(state) as u64;
    }
    entries
}

impl LazyList {
    // All lists, with the number of their entries.
    fn of_lists(lists: Lists) -> LazyList
        requires sound { IsSound lists }
        requires few { length lists.lists < 2 ^ 32 }
        requires start { 0 < length lists.lists }
        ensures { result ≡ map (costed lists.entry.trees) lists.entry.lists }
    {
        let steps = count_entries(&lists);
        let (trees, lists) = lists.into_lists();
        LazyList {
            trees,
            lists,
            steps,
        }
    }

    /// How many entries were placed for all states. An entry is one tree on the list of a state. It
    /// takes no memory.
    pub fn steps(&self) -> u64
        ensures { result ≡ entries_in self.now }
    {
        self.steps
    }

    /// How many lists there are: that of the start, and one of each useful state, in the order of
    /// the states. It takes no memory.
    pub fn lists(&self) -> usize
        ensures { result ≡ length self.now }
    {
        self.lists.len()
    }

    /// How many trees a list has, by its place from 0. It takes no memory.
    pub fn len(&self, place: usize) -> usize
        requires { place < length self.now }
        ensures { result ≡ length (get_or self.now place []) }
    {
        self.lists[place].len()
    }

    /// What a tree of a list costs, by its place there from 0. It takes no memory.
    pub fn cost(&self, place: usize, i: usize) -> Cost
        requires place { place < length self.now }
        requires inside { i < length (get_or self.now place []) }
        ensures { result ≡ (get_or (get_or self.now place []) i no_entry).1 }
    {
        self.lists[place][i].cost
    }

    /// A tree of a list, with all its nodes. Err only if memory is refused. Worst case: O(n) steps
    /// and memory for n nodes.
    pub fn tree(&self, alloc: Global, place: usize, i: usize) -> Result<Tree, AllocError>
        requires place { place < length self.now }
        requires inside { i < length (get_or self.now place []) }
        ensures { IfOk result (λ t. t ≡ (get_or (get_or self.now place []) i no_entry).0) }
    {
        self.trees.tree(alloc, self.lists[place][i].tree)
    }

    /// The list of the start alone. It takes no memory.
    pub fn into_list(self) -> List
        ensures { result ≡ get_or self 0 [] }
    {
        let LazyList {
            trees,
            mut lists,
            ..
        } = self;
        let entries = lists.swap_remove(0);
        List::over(trees, entries)
    }
}

// The lists of all states of rules in normal form that are deterministic below the root, over this
// number of states. None only if some state below a rule has no tree. An error may name any state.
pub(crate) fn lazy_of_rules<S: Semiring>(
    alloc: Global,
    rules: &[Rule<u32>],
    states: u32,
    labels: &Labels,
    ranks: &[u32],
    k: u32,
) -> Result<Option<LazyList>, KBestError>
    requires few { length rules.now < 2 ^ 32 }
    requires start { 0 < states }
    requires normal { AreNormal rules.now }
    requires range { AreInRange states rules.now }
    requires labelled { AreLabelled (length labels.now) rules.now }
    requires ranks { AreRanksOf labels.now ranks.now }
    requires orderly { IsOrderly S.product rules.now }
    requires form { IsDeterministicBelow rules.now }
    requires some { 0 < k }
    ensures best { IfOk result (λ found. IfSome found (λ ls. IsKBest S.product rules.now labels.now
        k (get_or ls 0 []))) }
    ensures fronts { IfOk result (λ found. IfSome found (λ ls. (q : ℕ) →
        IsFrontAt S.product labels.now rules.now q (get_or ls q []))) }
    ensures states { IfOk result (λ found. IfSome found (λ ls. length ls ≡ states)) }
    ensures bound { IfOk result (λ found. IfSome found (λ ls. entries_in ls
        ≤ states + nodes_of (get_or ls 0 []))) }
    ensures none { IfOk result (λ found. IfNone found (HaveTreesBelow S.product rules.now → ⊥)) }
    ensures cause { IfErr result (IsCause S.product labels.now rules.now k) }
{
    let states = states as usize;
    match lists_of_rules::<S>(alloc, rules, states, labels, ranks, k, Form::Deterministic) {
        Ok(Some(lists)) => Ok(Some(LazyList::of_lists(lists))),
        Ok(None) => Ok(None),
        Err(error) => Err(error),
    }
}

// The lists of the start and of each useful state of rules in normal and in deterministic form,
// which are trimmed first.
fn lazy_of_useful<S: Semiring>(
    alloc: Global,
    rules: Vec<Rule<u32>>,
    states: u32,
    labels: &Labels,
    ranks: &[u32],
    k: u32,
) -> Result<LazyList, KBestError>
    requires some { 0 < k }
    requires few { length rules.items < 2 ^ 32 }
    requires start { 0 < states }
    requires normal { AreNormal rules.items }
    requires range { AreInRange states rules.items }
    requires labelled { AreLabelled (length labels.now) rules.items }
    requires ranks { AreRanksOf labels.now ranks.now }
    requires orderly { IsOrderly S.product rules.items }
    requires form { IsDeterministicBelow rules.items }
    ensures best { IfOk result (λ ls. IsKBest S.product rules.items labels.now k (get_or ls 0 [])) }
    ensures lists { IfOk result (λ ls. AreUsefulLists S.product labels.now rules.items ls) }
    ensures few { IfOk result (λ ls. length ls ≤ states) }
    ensures bound { IfOk result (λ ls. entries_in ls ≤ length ls + nodes_of (get_or ls 0 [])) }
    ensures cause { IfErr result (IsUsefulCause S.product labels.now rules.items k) }
{
    let Ok(trimmed) = trimmed_rules::<S>(alloc, rules, states) else {
        return Err(KBestError::OutOfMemory);
    };
    trimmed_has_trees::<S>();
    let kept = trimmed.states.len() as u32;
    match lazy_of_rules::<S>(alloc, &trimmed.rules, kept, labels, ranks, k) {
        Ok(Some(lists)) => Ok(lists),
        Ok(None) => unreachable!(),
        Err(error) => Err(renamed(error, &trimmed.states)),
    }
}

/// The k best trees of a grammar that is deterministic below the root, as is one in deterministic
/// form and the normal form of one (law `deterministic_below`). They are those that `k_best` gives,
/// with the entries of the start and of each useful state that were placed for them: at most as
/// many as there are such states and nodes of the listed trees. `TreeTooLarge` names a useful state
/// that has among its k best trees one of more than 10,000 nodes; `OutOfMemory` comes if memory is
/// refused or 32-bit numbers run out. Worst case: that of `trim_rules`, a copy of the rules, O(r
/// log r) comparisons of trees for r rules, a pass over the last listed tree for each tree that is
/// listed, O(log n) comparisons for each entry and candidate, and O(n log n) comparisons of texts
/// for n labels.
pub fn lazy_k_best<S: Semiring>(
    alloc: Global,
    normal: &Normal<S>,
    labels: &Labels,
    k: u32,
) -> Result<LazyList, KBestError>
    requires flat { S.LEVELLED ≡ false }
    requires free { S.WEIGHTED ≡ false → (n : ℕ) → n < length normal.now.rules →
        (rule_at normal.now.rules n).cost ≡ 0 }
    requires labelled { AreLabelled (length labels.now) normal.now.rules }
    requires some { 0 < k }
    requires form { IsDeterministicBelow normal.now.rules }
    ensures best { IfOk result (λ ls. IsKBest S.product normal.now.rules labels.now k
        (get_or ls 0 [])) }
    ensures lists { IfOk result (λ ls. AreUsefulLists S.product labels.now normal.now.rules ls) }
    ensures few { IfOk result (λ ls. length ls ≤ length normal.now.names) }
    ensures bound { IfOk result (λ ls. entries_in ls ≤ length ls + nodes_of (get_or ls 0 [])) }
    ensures cause { IfErr result (IsUsefulCause S.product labels.now normal.now.rules k) }
{
    let Ok(ranks) = label_ranks(alloc, labels) else {
        return Err(KBestError::OutOfMemory);
    };
    let grammar = normal.grammar();
    grammar.is_sound();
    let states = grammar.states();
    let Ok(copy) = copied_rules(alloc, grammar.rule_list()) else {
        return Err(KBestError::OutOfMemory);
    };
    lazy_of_useful::<S>(alloc, copy, states, labels, &ranks, k)
}
