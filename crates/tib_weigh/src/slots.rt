// Rules in slots, by the states at one child place.
ghost use Rattle.std.specs.Prelude.{◌≡◌, ℕ, ◌%◌, ◌<◌, length, IfOk, vec_len, get_or, [], nat_lt};
ghost use Rattle.tib_grammar.specs.Forms.{AreNormal};
ghost use Rattle.tib_weigh.specs.Buckets.{lists_of, slots_of, slot_at, AgreeBeside, AreRules, HoldsAll, IsRuleOver, HoldsOnly, IsParting};

use crate::ready::{Ready, agree_beside};
use std::alloc::{AllocError, Global};
use tib_grammar::Rule;

/// Some rules by the states at one of their child places. The slot of a state is its number modulo
/// the number of slots, so a slot may hold rules of further states too. The rules of all slots are
/// stored one slot after the other, so that those that are read in turn are near in memory; a slot
/// ends where the next one starts.
#[derive(Drop)]
pub(crate) struct Slots {
    starts: Vec<usize>,
    ready: Vec<Ready>,
    ghost some: { 1 < vec_len starts },
    ghost parting: { IsParting starts.items (vec_len ready) },
}

// The slot of a state.
fn slot_of(state: u32, slots: usize) -> usize
    requires { 0 < slots }
    ensures { result ≡ state % slots }
{
    let state = state as usize;
    if state < slots { state } else { state % slots }
}

// This number of empty slots.
fn blank(alloc: Global, slots: usize) -> Result<Vec<Vec<Ready>>, AllocError>
    ensures many { IfOk result (λ v. vec_len v ≡ slots) }
    ensures empty { IfOk result (λ v. (s : ℕ) → get_or (lists_of v.items) s [] ≡ []) }
{
    let mut made = Vec::with_capacity(alloc, slots)?;
    while made.len() < slots {
        made.push(Vec::new(alloc))?;
    }
    Ok(made)
}

// Of the rules at two positions the first, if it has the states of the second at all other places,
// else the second.
fn rest_of(rules: &[Rule<u32>], rest: u32, position: u32, place: usize, rank: u32) -> u32
    requires normal { AreNormal rules.now }
    requires rest { IsRuleOver rules.now rank rest }
    requires position { IsRuleOver rules.now rank position }
    ensures over { IsRuleOver rules.now rank result }
    ensures beside { AgreeBeside rules.now rank place result position }
{
    let first = rules[rest as usize].states_below();
    let second = rules[position as usize].states_below();
    if agree_beside(first, second, place) {
        return rest;
    }
    position
}

// The rules at some positions in the slots of their states at a child place.
fn filed(
    alloc: Global,
    rules: &[Rule<u32>],
    positions: &[u32],
    place: usize,
    rank: u32,
    slots: usize,
) -> Result<Vec<Vec<Ready>>, AllocError>
    requires normal { AreNormal rules.now }
    requires rules { AreRules rules.now rank positions.now }
    requires place { place < rank }
    requires some { 0 < slots }
    ensures many { IfOk result (λ v. vec_len v ≡ slots) }
    ensures all { IfOk result (λ v. HoldsAll rules.now place positions.now (lists_of v.items)) }
    ensures only { IfOk result (λ v. HoldsOnly rules.now rank place positions.now
        (lists_of v.items)) }
{
    let mut made = blank(alloc, slots)?;
    let Some(first) = positions.first() else {
        return Ok(made);
    };
    let mut rest = *first;
    for position in positions {
        rest = rest_of(rules, rest, *position, place, rank);
        let rule = &rules[*position as usize];
        let state = rule.states_below()[place].state();
        made[slot_of(state, slots)].push(Ready {
            position: *position,
            left: rule.left,
            state,
            rest,
            cost: rule.cost,
        })?;
    }
    Ok(made)
}

// The rules of all slots, one slot after the other.
fn flattened(alloc: Global, lists: &[Vec<Ready>]) -> Result<Slots, AllocError>
    requires some { 0 < length lists.now }
    ensures { IfOk result (λ s. slots_of s.starts.items s.ready.items ≡ lists_of lists.now) }
{
    let mut ready = Vec::new(alloc);
    let mut starts = vec![in alloc; 0; 1]?;
    for list in lists {
        ready.extend_from_slice(list)?;
        starts.push(ready.len())?;
    }
    Ok(Slots { starts, ready })
}

impl Slots {
    /// The rules at some positions in this number of slots, by the states at a child place. Err
    /// only if memory is refused. Worst case: memory in proportion to the positions and the slots,
    /// and time in proportion to that and to the states below the rules.
    pub(crate) fn new(
        alloc: Global,
        rules: &[Rule<u32>],
        positions: &[u32],
        place: usize,
        rank: u32,
        slots: usize,
    ) -> Result<Slots, AllocError>
        requires normal { AreNormal rules.now }
        requires rules { AreRules rules.now rank positions.now }
        requires place { place < rank }
        requires some { 0 < slots }
        ensures all { IfOk result (λ s. HoldsAll rules.now place positions.now
            (slots_of s.starts.items s.ready.items)) }
        ensures only { IfOk result (λ s. HoldsOnly rules.now rank place positions.now
            (slots_of s.starts.items s.ready.items)) }
    {
        let lists = filed(alloc, rules, positions, place, rank, slots)?;
        flattened(alloc, &lists)
    }

    /// The rules in the slot of a state. It takes a few steps.
    pub(crate) fn at(&self, state: u32) -> &[Ready]
        ensures { result.now ≡ slot_at (slots_of self.now.starts.items self.now.ready.items)
            state }
    {
        let slot = slot_of(state, self.starts.len() - 1);
        &self.ready[self.starts[slot]..self.starts[slot + 1]]
    }

    /// Whether there is a rule in the slot of a state. It takes a few steps.
    pub(crate) fn has(&self, state: u32) -> bool
        ensures { result ≡ nat_lt 0 (length (slot_at (slots_of self.now.starts.items
            self.now.ready.items) state)) }
    {
        let slot = slot_of(state, self.starts.len() - 1);
        self.starts[slot] < self.starts[slot + 1]
    }

    /// How many slots have a rule: about as many as there are states at the child place. Worst
    /// case: a step for each slot.
    pub(crate) fn used(&self) -> usize {
        let mut used: usize = 0;
        for slot in 1..self.starts.len() {
            if self.starts[slot - 1] < self.starts[slot] {
                used = used.saturating_add(1);
            }
        }
        used
    }
}
