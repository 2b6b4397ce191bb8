// Rules whose states are raised by a number.
ghost use Rattle.std.specs.Prelude.{◌≡◌, ◌+◌, ◌<◌, ◌^◌, length, map, IfOk};
ghost use Rattle.tib_grammar.specs.Forms.{IsNormalSide};
ghost use Rattle.tib_grammar.specs.Sides.{holes};
ghost use Rattle.tib_compare.specs.Beside.{moved, CanRaise};

use std::alloc::{AllocError, Global};
use tib_cost::Cost;
use tib_grammar::{Rule, Side};

// The left state of a rule, raised by a number.
pub(crate) fn raised_left(rule: &Rule<u32>, by: u32) -> u32
    requires { CanRaise by rule.now }
    ensures { result ≡ by + rule.now.left }
{
    by + rule.left
}

// How many states are below a rule.
fn count_of(rule: &Rule<u32>) -> usize
    requires { IsNormalSide rule.now.right }
    ensures many { result ≡ length (holes rule.now.right.kids) }
    ensures few { result < 2 ^ 32 }
{
    let (_label, rank) = rule.root();
    rank as usize
}

// The states below a rule, in order, each raised by a number.
fn read_states(rule: &Rule<u32>, by: u32, states: &mut Vec<u32>) -> Result<(), AllocError>
    requires normal { IsNormalSide rule.now.right }
    requires raised { CanRaise by rule.now }
    ensures { IfOk result (λ _. states.new.items
        ≡ map (λ q. by + q) (holes rule.now.right.kids)) }
{
    states.clear();
    let below = rule.states_below();
    for item in below {
        states.push(by + item.state())?;
    }
    Ok(())
}

// A rule's label over its states, each raised by a number, from this left state at this cost.
pub(crate) fn moved_rule(
    alloc: Global,
    rule: &Rule<u32>,
    left: u32,
    by: u32,
    cost: Cost,
    states: &mut Vec<u32>,
) -> Result<Rule<u32>, AllocError>
    requires normal { IsNormalSide rule.now.right }
    requires raised { CanRaise by rule.now }
    ensures { IfOk result (λ r. r ≡ moved left by cost rule.now) }
{
    count_of(rule);
    read_states(rule, by, states)?;
    let (label, _rank) = rule.root();
    let right = Side::over(alloc, label, states)?;
    Ok(Rule { left, right, cost })
}
