//! The search for the matches of a side among boxes of states: it halves a box that may have a
//! match, and drops one that can have none.

ghost use Rattle.std.specs.Prelude.{◌≡◌, ℕ, ◌<◌, ◌+◌, ◌++◌, ◌∷◌, [], length, map, replicate, IsTrue, false, IfOk, OnOk, Some, None};
ghost use Rattle.std.proofs.Common.{set};
ghost use Rattle.tib_tree.specs.Trees.{preorder_of};
ghost use Rattle.tib_grammar.specs.Sides.{holes_of};
ghost use Rattle.tib_match.specs.Searching.{
  IsNarrow,
  IsWide,
  AreNarrow,
  IsFirstWide,
  HasHalves,
  boxes_of,
  lows,
  Takes,
  IsUnderway,
  IsWithin,
  AnswersWhere,
  IsWideAnswer,
};
ghost use Rattle.tib_match.specs.declared.hole_cost.HoleCost.TheVariants.{Free};

use crate::box_cost::least_cost;
use crate::columns::product_of;
use crate::found_match::Match;
use crate::hole_cost::{HoleCost, is_each_priced};
use crate::spans::Span;
use crate::within::Within;
use smallvec::SmallVec;
use std::alloc::{AllocError, Global};
use tib_cost::{Cost, Semiring};
use tib_grammar::Side;
use tib_normal::Normal;

// Whether a span has more than one state.
fn is_wide(span: &Span) -> bool
    ensures yes { IsTrue result → IsWide span.now }
    ensures no { result ≡ false → IsNarrow span.now }
{
    span.low as u64 + 1 < span.high as u64
}

// The place of the first span of more than one state.
fn first_wide(spans: &[Span]) -> Option<usize>
    ensures { IsWideAnswer spans.now result }
{
    for (place, span) in spans.iter().enumerate() {
        if is_wide(span) {
            return Some(place);
        }
    }
    None
}

// Some spans with another one at a place.
fn with_span(
    alloc: Global,
    spans: &[Span],
    place: usize,
    span: Span,
) -> Result<Vec<Span>, AllocError>
    requires { place < length spans.now }
    ensures { IfOk result (λ v. v.items ≡ set spans.now place span) }
{
    let mut all = spans.to_vec(alloc)?;
    all[place] = span;
    Ok(all)
}

// Puts the two halves of a box after others, the lower one last.
fn push_halves(
    alloc: Global,
    spans: &[Span],
    place: usize,
    waiting: &mut Vec<Vec<Span>>,
) -> Result<(), AllocError>
    requires { IsFirstWide spans.now place }
    ensures { OnOk result (HasHalves spans.now place (boxes_of waiting.old.items)
        (boxes_of waiting.new.items)) }
{
    let low = spans[place].low;
    let high = spans[place].high;
    let middle = low + (high - low) / 2;
    let upper = with_span(alloc, spans, place, Span { low: middle, high })?;
    let lower = with_span(alloc, spans, place, Span { low, high: middle })?;
    waiting.push(upper)?;
    waiting.push(lower)?;
    Ok(())
}

// The first state of each span.
fn first_states(alloc: Global, spans: &[Span]) -> Result<SmallVec<u32, 4>, AllocError>
    ensures { IfOk result (λ v. v.items ≡ lows spans.now) }
{
    let mut states = SmallVec::with_capacity(alloc, spans.len())?;
    for span in spans {
        states.push(span.low)?;
    }
    Ok(states)
}

// Free holes.
fn free_holes(alloc: Global, many: usize) -> Result<Vec<HoleCost>, AllocError>
    ensures { IfOk result (λ v. v.items ≡ replicate many Free) }
{
    let mut free = Vec::with_capacity(alloc, many)?;
    for _place in 0..many {
        free.push(HoleCost::Free)?;
    }
    Ok(free)
}

// The box of all states below a number.
fn whole_box(alloc: Global, states: u32, many: usize) -> Result<Vec<Span>, AllocError>
    ensures { IfOk result (λ v. v.items ≡ replicate many (record { low = 0; high = states })) }
{
    let mut spans = Vec::with_capacity(alloc, many)?;
    for _place in 0..many {
        spans.push(Span {
            low: 0,
            high: states,
        })?;
    }
    Ok(spans)
}

// What matches are searched for: a grammar, the state at the root, the cost above, and the costs of
// states at the holes.
#[derive(Drop)]
struct Search<'a, S> {
    normal: &'a Normal<S>,
    state: u32,
    above: Cost,
    costs: &'a [HoleCost],
}

impl<'a, S: Semiring> Search<'a, S> {
    // Puts the match of a box of one list after those that were found, if there is one.
    fn take<P>(
        &self,
        alloc: Global,
        side: &Side<P>,
        spans: &[Span],
        found: &mut Vec<Match>,
    ) -> Result<(), AllocError>
        requires costs { length self.now.costs.now ≡ length (holes_of side.now) }
        requires spans { length spans.now ≡ length (holes_of side.now) }
        ensures { OnOk result (Takes S.product self.now.normal.now.rules (preorder_of side.now)
            self.now.state (length self.now.costs.now) spans.now found.old.items found.new.items) }
    {
        let free = free_holes(alloc, self.costs.len())?;
        let least = least_cost(alloc, self.normal, self.state, side.items(), &free, spans)?;
        let Some(cost) = least else {
            return Ok(());
        };
        let states = first_states(alloc, spans)?;
        found.push(Match { cost, states })?;
        Ok(())
    }

    // Searches one box: it is dropped, halved, or its one list is taken.
    fn search_box<P>(
        &self,
        alloc: Global,
        side: &Side<P>,
        spans: &[Span],
        found: &mut Vec<Match>,
        waiting: &mut Vec<Vec<Span>>,
    ) -> Result<(), AllocError>
        requires costs { length self.now.costs.now ≡ length (holes_of side.now) }
        requires spans { length spans.now ≡ length (holes_of side.now) }
        ensures { OnOk result (
            IsUnderway S.product self.now.normal.now.rules side.now self.now.state self.now.above
            self.now.costs.now found.old.items (boxes_of waiting.old.items ++ spans.now ∷ []) →
            IsUnderway S.product self.now.normal.now.rules side.now self.now.state self.now.above
            self.now.costs.now found.new.items (boxes_of waiting.new.items)) }
    {
        self.normal.grammar();
        let items = side.items();
        let least = least_cost(alloc, self.normal, self.state, items, self.costs, spans)?;
        let Some(_whole) = product_of::<S>(Some(self.above), least) else {
            return Ok(());
        };
        match first_wide(spans) {
            Some(place) => push_halves(alloc, spans, place, waiting),
            None => self.take(alloc, side, spans, found),
        }
    }

    // Searches box by box, until more than this many matches were found or no box is left.
    fn run<P>(&self, alloc: Global, side: &Side<P>, most: u64) -> Result<Within, AllocError>
        requires state { self.now.state < length self.now.normal.now.names }
        requires costs { length self.now.costs.now ≡ length (holes_of side.now) }
        ensures { IfOk result (AnswersWhere S.product self.now.normal.now.rules side.now
            self.now.state (IsWithin S.product self.now.above self.now.costs.now) most) }
    {
        let grammar = self.normal.grammar();
        grammar.is_sound();
        side.items();
        let mut found = Vec::new(alloc);
        let mut waiting = Vec::new(alloc);
        waiting.push(whole_box(alloc, grammar.states(), self.costs.len())?)?;
        for _turn in 0..u64::MAX {
            let Some(spans) = waiting.pop() else {
                return Ok(Within::All(found));
            };
            self.search_box(alloc, side, &spans, &mut found, &mut waiting)?;
            if found.len() as u64 > most {
                return Ok(Within::More);
            }
        }
        Err(AllocError)
    }
}

/// The matches of a side from a state that cost no more than `MOST` with a cost above them and with
/// what the states at the holes cost; the list may hold others too. Each list occurs once, and they
/// ascend. `More` comes only where there are more than `most` such matches. Where there are not as
/// many costs as holes, no match has a cost with them, and the list is empty. Err only if memory is
/// refused, or if the search takes 2^64 - 1 steps.
///
/// It halves spans of states, hole by hole, and drops a box in which the least cost of all is too
/// great, so each that is kept has a match. For each match and each hole it looks at as many boxes
/// as there are halvings, twice the logarithm of the states, and a box takes one pass over the
/// states and the rules of each label in the side. So the worst case is a product: (`most` + 1) x
/// holes x logarithm of the states x (nodes x states + rules of their labels). It is for sides on
/// which `few_matches` gave up.
pub fn search_matches<S: Semiring, P>(
    alloc: Global,
    normal: &Normal<S>,
    state: u32,
    side: &Side<P>,
    above: Cost,
    costs: &[HoleCost],
    most: u64,
) -> Result<Within, AllocError>
    requires { state < length normal.now.names }
    ensures { IfOk result (AnswersWhere S.product normal.now.rules side.now state
        (IsWithin S.product above costs.now) most) }
{
    normal.grammar();
    if !is_each_priced(side.items(), costs) {
        return Ok(Within::All(Vec::new(alloc)));
    }
    let search = Search {
        normal,
        state,
        above,
        costs,
    };
    search.run(alloc, side, most)
}
