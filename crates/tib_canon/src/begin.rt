// The canonical grammar of a reached set.
ghost use Rattle.std.specs.Option.{option_cmp};
ghost use Rattle.std.specs.Prelude.{◌≡◌, ◌-◌, ◌<◌, ◌^◌, length, map, IfOk};
ghost use Rattle.tib_lex.specs.Lists.{Each, Distinct};
ghost use Rattle.tib_grammar.specs.Range.{AreInRange, SidesEndInHoles};
ghost use Rattle.tib_grammar.specs.Sides.{Lone};
ghost use Rattle.tib_grammar_file.specs.Printed.{AreLabelled, grammar_text};
ghost use Rattle.tib_canon.specs.Canonical.{names_of};
ghost use Rattle.tib_canon.specs.Keys.{behind_fresh, chain_in, started_rules, begun_rules, IsOverKeys, BeginsWithin, IsCanonicalOverKeys};

use crate::form::canonical_of_rules;
use crate::numbering::{numbers_of, states_behind_fresh, states_by_keys};
use crate::ordering::Printed;
use std::alloc::{AllocError, Global};
use std::marker::Model;
use tib_cost::{Cost, Semiring};
use tib_expand::{Found, TableKey};
use tib_grammar::{Item, Rule, Side, rename_rules};
use tib_tree::Labels;

/// Positions of an order, each with a cost: where the chain rules of a fresh start lead, and what
/// they cost.
#[derive(Drop)]
pub struct Finals {
    pairs: Vec<(u32, Cost)>,
}

impl Model for Finals {
    ghost use Rattle.std.specs.Prelude.{ℕ, List};

    ghost Value = { List (ℕ × ℕ) };

    ghost view = { λ f. f.pairs.items };
}

impl Finals {
    /// These positions with their costs. It takes no memory.
    pub fn new(pairs: Vec<(u32, Cost)>) -> Finals
        ensures { result ≡ pairs.items }
    {
        Finals { pairs }
    }

    /// The positions with their costs. It takes no memory.
    pub fn pairs(&self) -> &[(u32, Cost)]
        ensures { result.now ≡ self.now }
    {
        &self.pairs
    }
}

/// The start of a grammar over keys.
#[derive(Drop)]
pub enum Begin {
    /// The key at a position of the order.
    At(u32),
    /// A start that is no key, with a chain rule to each of these positions, at the cost there.
    Fresh(Finals),
    /// A start without rules.
    Empty,
}

// Makes rules over positions into rules over the keys of an order, with the start first and the
// others in ascending order.
fn over_keys<K: TableKey + Drop>(
    alloc: Global,
    order: Vec<K>,
    mut rules: Vec<Rule<u32>>,
    start: u32,
) -> Result<Vec<Rule<u32>>, AllocError>
    requires distinct { Distinct order.items }
    requires few { length order.items < 2 ^ 32 }
    requires start { start < length order.items }
    requires range { AreInRange (length order.items) rules.items }
    requires leaves { SidesEndInHoles rules.items }
    ensures { IfOk result (λ v. IsOverKeys K.cmp order.items rules.items start
        (record { names = names_of (length order.items); rules = v.items })) }
{
    let states = states_by_keys(alloc, order, start)?;
    let numbers = numbers_of(alloc, &states)?;
    rename_rules(&mut rules, &numbers);
    Ok(rules)
}

// A lone state.
fn lone(alloc: Global, state: u32) -> Result<Side<u32>, AllocError>
    ensures { IfOk result (λ side. side ≡ Lone state) }
{
    let items = vec![in alloc; Item::Hole(state)]?;
    match Side::from_preorder(items) {
        Ok(side) => Ok(side),
        Err(_) => unreachable!(),
    }
}

// The chain rules of a fresh start, which is 0, to the numbers of some positions.
fn chain_rules(
    alloc: Global,
    finals: &[(u32, Cost)],
    numbers: &[u32],
) -> Result<Vec<Rule<u32>>, AllocError>
    requires { Each (λ final. final.0 < length numbers.now) finals.now }
    ensures { IfOk result (λ rules. rules.items ≡ map (chain_in numbers.now) finals.now) }
{
    let mut rules = Vec::with_capacity(alloc, finals.len())?;
    for (position, cost) in finals {
        let right = lone(alloc, numbers[*position as usize])?;
        rules.push(Rule {
            left: 0,
            right,
            cost: *cost,
        })?;
    }
    Ok(rules)
}

// Makes rules over positions into rules over the keys of an order after a fresh start, with its
// chain rules first.
fn over_behind_fresh<K: TableKey + Drop>(
    alloc: Global,
    order: Vec<K>,
    mut rules: Vec<Rule<u32>>,
    finals: Finals,
) -> Result<Vec<Rule<u32>>, AllocError>
    requires distinct { Distinct order.items }
    requires few { length order.items < 2 ^ 32 - 1 }
    requires within { Each (λ final. final.0 < length order.items) finals }
    requires range { AreInRange (length order.items) rules.items }
    requires leaves { SidesEndInHoles rules.items }
    ensures { IfOk result (λ v.
        IsOverKeys (option_cmp K.cmp) (behind_fresh order.items) (started_rules finals rules.items)
        0 (record { names = names_of (length (behind_fresh order.items)); rules = v.items })) }
{
    let states = states_behind_fresh(alloc, order)?;
    let numbers = numbers_of(alloc, &states)?;
    let behind = &numbers[1..];
    rename_rules(&mut rules, behind);
    let mut started = chain_rules(alloc, finals.pairs(), behind)?;
    started.append(&mut rules)?;
    Ok(started)
}

/// The canonical grammar whose states are the keys of an order. The start is named `q0`, and the
/// other useful keys `q1`, `q2` and so on in ascending order. A fresh start is no key, and has the
/// chain rules to its finals. The rules are over positions of the order. Err only if memory is
/// refused; both are then gone. Worst case: the keys are sorted once, and then that of `canonical`.
pub fn to_grammar<S: Semiring, K: TableKey + Drop>(
    alloc: Global,
    found: Found<K, Rule<u32>>,
    begin: Begin,
    labels: &Labels,
) -> Result<Printed<S>, AllocError>
    requires distinct { Distinct found.order.items }
    requires few { length found.order.items < 2 ^ 32 - 1 }
    requires few_rules { length (begun_rules begin found.rules.items) < 2 ^ 32 }
    requires begin { BeginsWithin (length found.order.items) begin }
    requires range { AreInRange (length found.order.items) found.rules.items }
    requires leaves { SidesEndInHoles found.rules.items }
    requires labelled { AreLabelled (length labels.now) found.rules.items }
    ensures canonical { IfOk result (λ h. IsCanonicalOverKeys S.product S.SCALE labels.now K.cmp
        found.order.items found.rules.items begin h.grammar) }
    ensures labelled { IfOk result (λ h. AreLabelled (length labels.now) h.grammar.rules) }
    ensures text { IfOk result (λ h. h.text.bytes ≡ grammar_text S.SCALE labels.now h.grammar) }
{
    let Found { order, rules, .. } = found;
    match begin {
        Begin::At(start) => {
            let states = order.len() as u32;
            let rules = over_keys(alloc, order, rules, start)?;
            canonical_of_rules(alloc, states, rules, labels)
        }
        Begin::Fresh(finals) => {
            let states = order.len() as u32 + 1;
            let rules = over_behind_fresh(alloc, order, rules, finals)?;
            canonical_of_rules(alloc, states, rules, labels)
        }
        Begin::Empty => canonical_of_rules(alloc, 1, Vec::new(alloc), labels),
    }
}
