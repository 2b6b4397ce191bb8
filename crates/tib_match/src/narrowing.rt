// The rules of one state among those of a label and a rank.
ghost use Rattle.std.specs.Prelude.{ℕ, ◌<◌, ◌≤◌, length};
ghost use Rattle.std.proofs.Common.{get_or};
ghost use Rattle.tib_lex.specs.Lists.{Each};
ghost use Rattle.tib_grammar.specs.Run.{rule_at};
ghost use Rattle.tib_match.specs.Leading.{PlaceTheSame};
ghost use Rattle.tib_match.specs.Narrowing.{LeftsAscend};

use tib_grammar::Rule;

// How many of the positions, whose rules are in ascending order of their left states, have a rule
// of a lesser state.
fn count_below(rules: &[Rule<u32>], positions: &[u32], state: u64) -> usize
    requires below { Each (λ n. n < length rules.now) positions.now }
    requires ascend { LeftsAscend rules.now positions.now }
    ensures within { result ≤ length positions.now }
    ensures before { (i : ℕ) → i < result → (rule_at rules.now (get_or positions.now i 0)).left
        < state }
    ensures behind { (i : ℕ) → result ≤ i → i < length positions.now → state
        ≤ (rule_at rules.now (get_or positions.now i 0)).left }
{
    let mut low = 0;
    let mut high = positions.len();
    while low < high {
        let middle = low + (high - low) / 2;
        let position = positions[middle];
        if (rules[position as usize].left as u64) < state {
            low = middle + 1;
        } else {
            high = middle;
        }
    }
    low
}

/// Of the positions of some rules, which are in ascending order of their left states, those of the
/// rules of one state. They are found by halving.
pub(crate) fn narrow<'p>(rules: &[Rule<u32>], positions: &'p [u32], state: u32) -> &'p [u32]
    requires below { Each (λ n. n < length rules.now) positions.now }
    requires ascend { LeftsAscend rules.now positions.now }
    ensures below { Each (λ n. n < length rules.now) result.now }
    ensures whole { PlaceTheSame rules.now state positions.now result.now }
{
    let from = count_below(rules, positions, state as u64);
    let to = count_below(rules, positions, state as u64 + 1);
    if from >= to {
        return &[];
    }
    &positions[from..to]
}
