// Weights, and the costs that they stand for.
ghost use Rattle.std.specs.Prelude.{◌≡◌, ◌≤◌, ◌<◌, ◌+◌, ℕ, length, Some, None, min, ◌==◌, ◌*◌, ◌-◌, true};
ghost use Rattle.std.specs.List.{list_all};
ghost use Rattle.std.specs.Option.{option_map};
ghost use Rattle.tib_grammar_file.specs.Weight.{is_digit as spec_is_digit, is_zero_digit, whole, cost_of, too_large};

use tib_cost::{Boolean, Cost, MOST, Scale, Semiring};
use tib_lex::FaultKind;

// The least number that is no weight.
const TOO_LARGE: u64 = MOST + 1;

/// The cost of a rule without a weight, which is the same in each semiring.
pub(crate) fn one() -> Cost
    ensures { result ≡ 0 }
{
    <Boolean as Semiring>::one()
}

fn is_digit(byte: u8) -> bool
    ensures { result ≡ spec_is_digit byte }
{
    byte > 47 && byte < 58
}

fn are_zeros(bytes: &[u8]) -> bool
    ensures { result ≡ list_all is_zero_digit bytes.now }
{
    bytes.iter().all(|byte| *byte == b'0')
}

// One more digit, or the least number that is too large.
fn next_value(value: u64, byte: u8) -> u64
    requires digit { spec_is_digit byte ≡ true }
    requires small { value ≤ too_large }
    ensures { result ≡ min (10 * value + (byte - 48)) too_large }
{
    let next = 10 * value + (byte - 48) as u64;
    if next < TOO_LARGE { next } else { TOO_LARGE }
}

// The value of a whole number, or the least number that is too large.
fn read_whole(text: &[u8]) -> Option<u64>
    ensures { result ≡ option_map (λ n. min n too_large) (whole text.now) }
{
    if text.is_empty() || !is_digit(text[0]) {
        return None;
    }
    let mut value = 0;
    let mut at = 0;
    while at < text.len() && is_digit(text[at]) {
        value = next_value(value, text[at]);
        at += 1;
    }
    if at == text.len() {
        return Some(value);
    }
    if text[at] == b'.' && are_zeros(&text[at + 1..]) {
        return Some(value);
    }
    None
}

/// The cost of a weight.
pub(crate) fn read_weight(scale: Scale, text: &[u8]) -> Result<Cost, FaultKind>
    ensures { result ≡ cost_of scale (Some text.now) }
{
    if !scale.is_weighted() {
        return Ok(one());
    }
    match read_whole(text) {
        None => Err(FaultKind::NotWhole),
        Some(n) => match Cost::new(n) {
            Some(weight) => Ok(scale.cost(weight)),
            None => Err(FaultKind::WeightTooLarge),
        },
    }
}
