//! The positions of an order by the states of their vectors.

ghost use Rattle.std.specs.Prelude.{◌≡◌, ℕ, ◌<◌, ◌≤◌, ◌+◌, ◌^◌, Bool, List, [], length, take, IfOk, IsTrue, OnOk, false, true};
ghost use Rattle.std.proofs.Common.{get_or};
ghost use Rattle.tib_lex.specs.Lists.{Has};
ghost use Rattle.tib_determinize.specs.Alive.{AreAscending};
ghost use Rattle.tib_determinize.specs.Holders.{AddsVector, AreHolders, AscendUpTo, HoldMore, HoldSame, HoldsOneMore, held, is_marked};
ghost use Rattle.tib_determinize.specs.Vectors.{VectorOf, vector_at};

use crate::vector::Vector;
use std::alloc::{AllocError, Global};

/// For each state that is beside another one in some rule the positions of an order, ascending,
/// whose vectors have it.
#[derive(Drop)]
pub struct Holders {
    lists: Vec<Vec<u32>>,
}

/// Whether a state is marked.
pub(crate) fn is_marked(marks: &[bool], state: u32) -> bool
    ensures { result ≡ is_marked marks.now state }
{
    match marks.get(state as usize) {
        Some(mark) => *mark,
        None => false,
    }
}

/// How many of some positions, which ascend, are below one. Cost: a search by halving.
pub fn count_below(positions: &[u32], least: usize) -> usize
    requires { AreAscending positions.now }
    ensures within { result ≤ length positions.now }
    ensures before { (i : ℕ) → i < result → get_or positions.now i 0 < least }
    ensures behind { (i : ℕ) → result ≤ i → i < length positions.now → least
        ≤ get_or positions.now i 0 }
{
    let mut low = 0;
    let mut high = positions.len();
    while low < high {
        let middle = low + (high - low) / 2;
        if (positions[middle] as usize) < least {
            low = middle + 1;
        } else {
            high = middle;
        }
    }
    low
}

// Makes a list for a state, and for each one below it.
fn make_room(alloc: Global, lists: &mut Vec<Vec<u32>>, state: u32) -> Result<(), AllocError>
    ensures same { OnOk result (HoldSame lists.old.items lists.new.items) }
    ensures room { OnOk result (state < length lists.new.items) }
{
    while lists.len() <= state as usize {
        lists.push(Vec::new(alloc))?;
    }
    Ok(())
}

// Adds a position to those of a state.
fn add_position(
    alloc: Global,
    lists: &mut Vec<Vec<u32>>,
    state: u32,
    position: u32,
) -> Result<(), AllocError>
    ensures { OnOk result (HoldsOneMore state position lists.old.items lists.new.items) }
{
    make_room(alloc, lists, state)?;
    lists[state as usize].push(position)?;
    Ok(())
}

// Adds a position to those of a state, if the state is marked.
fn add_if_marked(
    alloc: Global,
    lists: &mut Vec<Vec<u32>>,
    marks: &[bool],
    state: u32,
    position: u32,
) -> Result<(), AllocError>
    ensures more { OnOk result (HoldMore lists.old.items lists.new.items) }
    ensures own { OnOk result (is_marked marks.now state ≡ true →
        Has (held lists.new.items state) position) }
    ensures ascend { OnOk result (AscendUpTo position lists.old.items →
        AscendUpTo position lists.new.items) }
{
    if !is_marked(marks, state) {
        return Ok(());
    }
    add_position(alloc, lists, state, position)?;
    Ok(())
}

// Adds a position to those of each marked state of its vector.
fn add_vector(
    alloc: Global,
    lists: &mut Vec<Vec<u32>>,
    marks: &[bool],
    vector: &Vector,
    position: u32,
) -> Result<(), AllocError>
    ensures { OnOk result (AddsVector marks.now vector.now position lists.old.items
        lists.new.items) }
{
    let entries = vector.entries();
    for i in 0..entries.len() {
        let state = entries[i].0;
        add_if_marked(alloc, lists, marks, state, position)?;
    }
    Ok(())
}

// Adds the positions of an order from one on to those of the marked states of their vectors.
fn add_vectors(
    alloc: Global,
    lists: &mut Vec<Vec<u32>>,
    marks: &[bool],
    order: &[Vector],
    from: u32,
) -> Result<(), AllocError>
    requires from { from ≤ length order.now }
    requires few { length order.now < 2 ^ 32 }
    requires held { AreHolders marks.now (take from order.now) lists.old.items }
    ensures { OnOk result (AreHolders marks.now order.now lists.new.items) }
{
    for position in from as usize..order.len() {
        add_vector(alloc, lists, marks, &order[position], position as u32)?;
    }
    Ok(())
}

impl Holders {
    /// The positions of the empty order. It takes one step and no memory.
    pub fn new(alloc: Global) -> Holders
        ensures { (marks : List Bool) → AreHolders marks [] result.lists.items }
    {
        Holders {
            lists: Vec::new(alloc),
        }
    }

    /// Adds the positions of an order from one on; the states that are marked have theirs. Err only
    /// if memory is refused. Cost: one step for each entry of their vectors, and for each state up
    /// to the greatest of theirs.
    pub fn extend(
        &mut self,
        alloc: Global,
        marks: &[bool],
        order: &[Vector],
        from: u32,
    ) -> Result<(), AllocError>
        requires from { from ≤ length order.now }
        requires few { length order.now < 2 ^ 32 }
        requires held { AreHolders marks.now (take from order.now) self.old.lists.items }
        ensures { OnOk result (AreHolders marks.now order.now self.new.lists.items) }
    {
        add_vectors(alloc, &mut self.lists, marks, order, from)
    }

    // The positions whose vectors have a state, in the whole order.
    fn all_of(&self, state: u32) -> &[u32]
        ensures { result.now ≡ held self.now.lists.items state }
    {
        match self.lists.get(state as usize) {
            Some(positions) => positions,
            None => &[],
        }
    }

    /// Whether a vector at a position below a bound has a marked state. It takes one step. Another
    /// state may be none of theirs.
    pub fn has_below(&self, state: u32, bound: usize) -> bool
        ensures { (marks : List Bool) (order : List VectorOf) (p r : ℕ) →
            AreHolders marks order self.now.lists.items → is_marked marks state ≡ true →
            p < bound → Has (vector_at order p) (state, r) → IsTrue result }
    {
        let positions = self.all_of(state);
        if positions.is_empty() {
            return false;
        }
        let first = positions[0] as usize;
        first < bound
    }

    /// The positions below a bound whose vectors have a marked state. It takes no memory. Cost: a
    /// search by halving.
    pub fn of(&self, state: u32, bound: usize) -> &[u32]
        requires { (marks : List Bool) × (order : List VectorOf) ×
            AreHolders marks order self.now.lists.items }
        ensures { (marks : List Bool) (order : List VectorOf) (p r : ℕ) →
            AreHolders marks order self.now.lists.items → is_marked marks state ≡ true →
            p < bound → Has (vector_at order p) (state, r) → Has result.now p }
    {
        let positions = self.all_of(state);
        let many = count_below(positions, bound);
        &positions[..many]
    }
}
