// The states in the right sides of all rules.
ghost use Rattle.std.specs.Prelude.{◌≡◌, ℕ, ◌+◌, ◌<◌, ◌≤◌, ◌^◌, ◌++◌, List, [], ◌∷◌, IfOk, OnOk, length};
ghost use Rattle.tib_grammar.specs.Items.{holes_in};
ghost use Rattle.tib_grammar.specs.Sides.{holes_of};
ghost use Rattle.tib_inside.specs.Holes.{AreHolesOf};

use std::alloc::{AllocError, Global};
use tib_grammar::{Item, Rule};

/// The states in the right sides of some rules, rule by rule, the rule of each, and how many each
/// rule has.
#[derive(Drop)]
pub struct Holes {
    pub states: Vec<u32>,
    pub owners: Vec<u32>,
    pub counts: Vec<usize>,
}

/// Appends the state of an item that has one.
fn add_state(item: &Item<u32>, states: &mut Vec<u32>) -> Result<(), AllocError>
    ensures { OnOk result (states.new.items ≡ states.old.items ++ holes_in (item.now ∷ [])) }
{
    match item {
        Item::Label { .. } => {}
        Item::Hole(state) => states.push(*state)?,
    }
    Ok(())
}

/// Appends the states among some items.
fn add_states(items: &[Item<u32>], states: &mut Vec<u32>) -> Result<(), AllocError>
    ensures { OnOk result (states.new.items ≡ states.old.items ++ holes_in items.now) }
{
    for item in items {
        add_state(item, states)?;
    }
    Ok(())
}

/// Appends the states in the right side of a rule, from left to right. Err only if memory is
/// refused; then some of them may be appended. Cost: one pass over the side.
pub fn add_side(rule: &Rule<u32>, states: &mut Vec<u32>) -> Result<(), AllocError>
    ensures { OnOk result (states.new.items ≡ states.old.items ++ holes_of rule.now.right) }
{
    add_states(rule.right.items(), states)
}

impl Holes {
    /// The states in the right sides of some rules. Err only if memory is refused. Cost: one pass
    /// over the right sides.
    pub fn new(alloc: Global, rules: &[Rule<u32>]) -> Result<Holes, AllocError>
        requires few { length rules.now < 2 ^ 32 }
        ensures { IfOk result (AreHolesOf rules.now) }
    {
        let mut states = Vec::new(alloc);
        let mut owners = Vec::new(alloc);
        let mut counts = Vec::with_capacity(alloc, rules.len())?;
        for (n, rule) in rules.iter().enumerate() {
            add_side(rule, &mut states)?;
            counts.push(states.len() - owners.len())?;
            owners.resize(states.len(), n as u32)?;
        }
        Ok(Holes {
            states,
            owners,
            counts,
        })
    }
}
