// An order of the states in which each comes after those that it leads to.
ghost use Rattle.std.specs.Prelude.{◌≡◌, ℕ, ◌+◌, ◌<◌, ◌≤◌, List, [], length, IfOk, IsTrue, ◌↔◌, MatchOption};
ghost use Rattle.std.proofs.Common.{get_or};
ghost use Rattle.tib_grammar.specs.Range.{AreBelow};
ghost use Rattle.tib_count.specs.Edges.{IsEdge};
ghost use Rattle.tib_count.specs.Order.{IsOrder, IsCircle, IsSearching, AreNext, Finds, Skips};

use crate::edges::Edges;
use std::alloc::{AllocError, Global};
use tib_inside::Links;

/// How far the search is with a state.
#[derive(Clone, Copy, Debug)]
pub enum Phase {
    /// It was not met.
    Unseen,
    /// It is on the path.
    Begun,
    /// It and all that it leads to are in the order.
    Settled,
}

/// Whether a state in this phase is settled.
fn is_settled(phase: Phase) -> bool
    ensures { IsTrue result ↔ (phase ≡ Phase.Settled) }
{
    match phase {
        Phase::Unseen | Phase::Begun => false,
        Phase::Settled => true,
    }
}

/// Passes over settled states: from a place on, the first place of its state at which the state on
/// the other side is not settled.
fn skip(edges: &Edges, next: &[usize], phases: &[Phase], start: usize) -> usize
    requires next { AreNext edges.now.froms.items next.now }
    requires as_many { length edges.now.tos.items ≡ length edges.now.froms.items }
    requires below { AreBelow (length phases.now) edges.now.tos.items }
    requires within { start ≤ length edges.now.froms.items }
    ensures passed { Skips edges.now.froms.items edges.now.tos.items phases.now start result }
    ensures stops { result < length edges.now.tos.items →
        get_or phases.now (get_or edges.now.tos.items result 0) Phase.Unseen ≡ Phase.Settled → ⊥ }
{
    let mut place = start;
    while place < edges.tos.len() && is_settled(phases[edges.tos[place] as usize]) {
        place = next[place];
    }
    place
}

/// Searches on from the end of the path (Tarjan 1976), and says whether it has found an order: if
/// not, it came back to the path.
fn search(
    edges: &Edges,
    next: &[usize],
    cursors: &mut [usize],
    phases: &mut [Phase],
    path: &mut Vec<u32>,
    order: &mut Vec<u32>,
) -> Result<bool, AllocError>
    requires as_many { length edges.now.tos.items ≡ length edges.now.froms.items }
    requires next { AreNext edges.now.froms.items next.now }
    requires below { AreBelow (length phases.old) edges.now.tos.items }
    requires searching { IsSearching edges.now.froms.items edges.now.tos.items
        phases.old cursors.old path.old.items order.old.items }
    ensures { IfOk result (Finds edges.now.froms.items edges.now.tos.items (length phases.old)
        order.new.items) }
{
    while let Some(state) = path.pop() {
        let place = skip(edges, next, phases, cursors[state as usize]);
        if place == edges.tos.len() {
            phases[state as usize] = Phase::Settled;
            order.push(state)?;
        } else {
            let below = edges.tos[place];
            let Phase::Unseen = phases[below as usize] else {
                return Ok(false);
            };
            cursors[state as usize] = place;
            phases[below as usize] = Phase::Begun;
            path.push(state)?;
            path.push(below)?;
        }
    }
    Ok(true)
}

/// The start and all states that it leads to, each after those that it leads to; none where this
/// cannot be. Err only if memory is refused. Cost: one pass over the edges and the states.
pub fn order_of(alloc: Global, edges: &Edges, count: usize) -> Result<Option<Vec<u32>>, AllocError>
    requires start { 0 < count }
    requires as_many { length edges.now.tos.items ≡ length edges.now.froms.items }
    requires from_below { AreBelow count edges.now.froms.items }
    requires to_below { AreBelow count edges.now.tos.items }
    ensures { IfOk result (λ found. MatchOption found
        (IsCircle (IsEdge edges.now.froms.items edges.now.tos.items))
        (λ order. IsOrder (IsEdge edges.now.froms.items edges.now.tos.items) count order.items)) }
{
    let Links { first, next } = Links::new(alloc, &edges.froms, count)?;
    let mut cursors = first;
    let mut phases = vec![in alloc; Phase::Unseen; count]?;
    phases[0] = Phase::Begun;
    let mut path = Vec::new(alloc);
    path.push(0)?;
    let mut order = Vec::new(alloc);
    let is_ordered = search(
        edges,
        &next,
        &mut cursors,
        &mut phases,
        &mut path,
        &mut order,
    )?;
    Ok(if is_ordered { Some(order) } else { None })
}
