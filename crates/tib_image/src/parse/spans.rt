//! The states and the places of pairs, by the numbers of their variables.

ghost use Rattle.std.specs.Prelude.{◌≡◌, ℕ, ◌<◌, ◌≤◌, length, IfOk, OnOk};
ghost use Rattle.std.proofs.Common.{get_or};
ghost use Rattle.tib_lex.specs.Lists.{Each};
ghost use Rattle.tib_strings.specs.Rules.{pairs_of};
ghost use Rattle.tib_strings.specs.Cuts.{spans as spans_of};
ghost use Rattle.tib_image.specs.Parsing.{span_at};
ghost use Rattle.tib_image.specs.ParseListing.{place_before};

use std::alloc::AllocError;
use tib_strings::Word;

/// The state of a pair, and the places before and after it.
pub(crate) type Span = (u32, u32, u32);

/// Makes room for the pairs of this many variables.
pub(crate) fn make_room(spans: &mut Vec<Span>, count: usize) -> Result<(), AllocError>
    ensures { OnOk result (count ≤ length spans.new.items) }
{
    for _ in spans.len()..count {
        spans.push((0, 0, 0))?;
    }
    Ok(())
}

/// The place before the token at a position, where the first token is at a place, and these are the
/// places after the tokens.
pub(crate) fn place_at(from: u32, places: &[u32], position: usize) -> u32
    requires { position ≤ length places.now }
    ensures { result ≡ place_before from places.now position }
{
    if position == 0 {
        from
    } else {
        places[position - 1]
    }
}

/// Empties the places of all variables.
fn clear(spans: &mut Vec<Span>)
    ensures long { length spans.new.items ≡ length spans.old.items }
    ensures empty { (v : ℕ) → get_or spans.new.items v (0, 0, 0) ≡ (0, 0, 0) }
{
    for place in 0..spans.len() {
        spans[place] = (0, 0, 0);
    }
}

/// Puts the state and the places of each pair at the number of its variable, the first of several,
/// where the tokens of a list are between these places. Where a variable has no pair, all three are
/// 0.
pub(crate) fn put_spans(tokens: &[Word<u32>], from: u32, places: &[u32], spans: &mut Vec<Span>)
    requires as_many { length places.now ≡ length tokens.now }
    requires known { Each (λ x. x.variable < length spans.old.items) (pairs_of tokens.now) }
    ensures long { length spans.new.items ≡ length spans.old.items }
    ensures at { (v : ℕ) → get_or spans.new.items v (0, 0, 0)
        ≡ span_at v (pairs_of tokens.now) (spans_of tokens.now from places.now) }
{
    clear(spans);
    let mut position = tokens.len();
    while position > 0 {
        position -= 1;
        if let Word::Hole(pair) = &tokens[position] {
            let before = place_at(from, places, position);
            spans[pair.variable as usize] = (pair.state, before, places[position]);
        }
    }
}
