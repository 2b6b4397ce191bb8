// What states keep once they have their first trees.
ghost use Rattle.std.specs.Prelude.{◌≡◌, ◌+◌, ◌<◌, ◌++◌, ◌∷◌, ℕ, [], length, map, IfOk, OnOk};
ghost use Rattle.std.specs.HashSet.{keys};
ghost use Rattle.std.proofs.Common.{get_or};
ghost use Rattle.std.proofs.Math.ListN.{set};
ghost use Rattle.tib_ranked_trees.specs.Held.{IsSound};
ghost use Rattle.tib_lazy_lists.specs.AskingOf.{asking_of, rules_of, state_of};
ghost use Rattle.tib_lazy_lists.specs.Firsts.{AreFirsts, AreTrimmed};
ghost use Rattle.tib_lazy_lists.specs.Asks.{AreByState, AreListed, IsAsking, IsState};
ghost use Rattle.tib_lazy_lists.specs.Beginnings.{AreFirstStates, AreSomeListed};

use crate::asking::{Asked, Asking, Stage};
use crate::listing::note;
use std::alloc::{AllocError, Global};
use std::collections::HashSet;
use tib_cost::Semiring;
use tib_ranked_trees::Lists;

// As many lists as there are states, each without a rule.
fn no_rules(alloc: Global, states: usize) -> Result<Vec<Vec<u32>>, AllocError>
    ensures none { IfOk result (λ v. (q : ℕ) → get_or (map rules_of v.items) q [] ≡ []) }
    ensures long { IfOk result (λ v. length v.items ≡ states) }
{
    let mut by_state = Vec::with_capacity(alloc, states)?;
    for _state in 0..states {
        by_state.push(Vec::new(alloc))?;
    }
    Ok(by_state)
}

// Appends a rule to those of a state.
fn add_rule(by_state: &mut Vec<Vec<u32>>, state: u32, rule: u32) -> Result<(), AllocError>
    requires { state < length by_state.old.items }
    ensures { OnOk result (map rules_of by_state.new.items ≡ set (map rules_of by_state.old.items)
        state (get_or (map rules_of by_state.old.items) state [] ++ rule ∷ [])) }
{
    by_state[state as usize].push(rule)?;
    Ok(())
}

// The rules of each state.
fn rules_by_state(alloc: Global, lists: &Lists) -> Result<Vec<Vec<u32>>, AllocError>
    requires { IsSound lists.now }
    ensures by_state { IfOk result (λ v. AreByState lists.now.rules (map rules_of v.items)) }
    ensures long { IfOk result (λ v. length v.items ≡ length lists.now.lists) }
{
    let rules = lists.rules();
    if rules > u32::MAX as usize {
        return Err(AllocError);
    }
    let mut by_state = no_rules(alloc, lists.states())?;
    for rule in 0..rules as u32 {
        add_rule(&mut by_state, lists.left(rule), rule)?;
    }
    Ok(by_state)
}

// What a state keeps once it has its first tree, or if it has none at all.
fn first_state<S: Semiring>(alloc: Global, lists: &Lists, state: u32) -> Asked
    requires firsts { AreFirsts S.product lists.now }
    requires state { state < length lists.now.lists }
    ensures { (k : ℕ) → IsState S.product k lists.now state (state_of result) }
{
    if lists.len(state) == 0 {
        return Asked {
            stage: Stage::Whole,
            last: 0,
            heap: Vec::new(alloc),
        };
    }
    Asked {
        stage: Stage::Closed,
        last: lists.entry(state, 0).candidate,
        heap: Vec::new(alloc),
    }
}

// What the first states keep.
fn first_states<S: Semiring>(
    alloc: Global,
    lists: &Lists,
    states: u32,
) -> Result<Vec<Asked>, AllocError>
    requires firsts { AreFirsts S.product lists.now }
    requires states { states ≡ length lists.now.lists }
    ensures kept { IfOk result (λ v. AreFirstStates S.product lists.now (map state_of v.items)) }
    ensures long { IfOk result (λ v. length v.items ≡ length lists.now.lists) }
{
    let mut asked = Vec::new(alloc);
    for state in 0..states {
        asked.push(first_state::<S>(alloc, lists, state))?;
    }
    Ok(asked)
}

// Notes the first tree of a state, if it has one.
fn note_first<S: Semiring>(
    lists: &Lists,
    listed: &mut HashSet<(u32, u32)>,
    state: u32,
) -> Result<(), AllocError>
    requires firsts { AreFirsts S.product lists.now }
    requires state { state < length lists.now.lists }
    requires listed { AreSomeListed lists.now state (keys listed.old) }
    ensures { OnOk result (AreSomeListed lists.now (state + 1) (keys listed.new)) }
{
    if lists.len(state) == 0 {
        return Ok(());
    }
    note(listed, state, lists.entry(state, 0).tree)?;
    Ok(())
}

// The first trees of the states.
fn first_listed<S: Semiring>(
    alloc: Global,
    lists: &Lists,
    states: u32,
) -> Result<HashSet<(u32, u32)>, AllocError>
    requires firsts { AreFirsts S.product lists.now }
    requires states { states ≡ length lists.now.lists }
    ensures { IfOk result (λ s. AreListed lists.now (keys s)) }
{
    let mut listed = HashSet::new(alloc);
    for state in 0..states {
        note_first::<S>(lists, &mut listed, state)?;
    }
    Ok(listed)
}

impl Asking {
    // What states keep once they have their first trees, where k trees are asked for.
    pub(crate) fn new<S: Semiring>(
        alloc: Global,
        lists: &Lists,
        k: u32,
    ) -> Result<Asking, AllocError>
        requires firsts { AreFirsts S.product lists.now }
        requires trimmed { AreTrimmed lists.now }
        requires some { 0 < k }
        ensures kept { IfOk result (λ a. IsAsking S.product lists.now (asking_of a)) }
        ensures k { IfOk result (λ a. a.k ≡ k) }
    {
        if lists.states() > u32::MAX as usize {
            return Err(AllocError);
        }
        let count = lists.states() as u32;
        let states = first_states::<S>(alloc, lists, count)?;
        let by_state = rules_by_state(alloc, lists)?;
        let listed = first_listed::<S>(alloc, lists, count)?;
        Ok(Asking {
            k,
            states,
            by_state,
            listed,
        })
    }
}
