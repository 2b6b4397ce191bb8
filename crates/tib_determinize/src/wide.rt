//! The states that are beside others in the right-hand sides of rules.

ghost use Rattle.tib_grammar.specs.Forms.{AreNormal, IsNormalSide};

use std::alloc::{AllocError, Global};
use tib_grammar::Rule;

// Marks the states below the root of a rule, if they are more than one.
fn mark(rule: &Rule<u32>, wide: &mut Vec<bool>) -> Result<(), AllocError>
    requires { IsNormalSide rule.now.right }
{
    let below = rule.states_below();
    if below.len() < 2 {
        return Ok(());
    }
    for item in below {
        let state = item.state() as usize;
        while wide.len() <= state {
            wide.push(false)?;
        }
        wide[state] = true;
    }
    Ok(())
}

/// For each state whether it is beside another one in some rule; states after the list do not.
pub(crate) fn wide_states(alloc: Global, rules: &[Rule<u32>]) -> Result<Vec<bool>, AllocError>
    requires { AreNormal rules.now }
{
    let mut wide = Vec::new(alloc);
    for rule in rules {
        mark(rule, &mut wide)?;
    }
    Ok(wide)
}
