// The costs at a node from a table of its rules: only the rules are tried that one child can serve.
ghost use Rattle.std.specs.Prelude.{◌≡◌, ◌⊎◌, ℕ, ◌+◌, ◌-◌, ◌<◌, ◌≤◌, length, map, IfOk, None, Some, nat_eq, get_or, [], if◌then◌else◌};
ghost use Rattle.tib_cost.specs.Least.{lesser as lesser_of, times as times_of};
ghost use Rattle.tib_lex.specs.Lists.{Each, Has};
ghost use Rattle.tib_grammar.specs.Forms.{AreNormal};
ghost use Rattle.tib_weigh.specs.Buckets.{IsRuleOver};
ghost use Rattle.tib_weigh.specs.Entries.{cost_in, IsAscending};
ghost use Rattle.tib_weigh.specs.Found.{cost_of, IsBlank, IsNoted};
ghost use Rattle.tib_weigh.specs.Tables.{bucket};
ghost use Rattle.tib_weigh.specs.Vectors.{vectors};
ghost use Rattle.tib_weigh.specs.Worth.{times_beside, rest_worth, worth, HasTried, HasTriedAll, IsRemembered, AreSound};
ghost use Rattle.tib_grammar.specs.Items.{state_in};

use crate::found::CostsByState;
use crate::picking::pick;
use crate::ready::Ready;
use crate::table::Table;
use crate::vector::{Entry, cost_at};
use std::alloc::AllocError;
use tib_cost::{Cost, Semiring};
use tib_grammar::{Item, Rule};

// The fewest entries of a vector for which those with rules are collected first.
const LEAST_PICKED: usize = 16;

/// A child place of a node, with what it takes to try a rule there: the rules of the grammar, the
/// vectors of trees, of which the last are those of the children, and the number of children.
#[derive(Clone, Copy)]
pub(crate) struct ChildPlace<'a> {
    pub rules: &'a [Rule<u32>],
    pub stack: &'a [Vec<Entry>],
    pub place: usize,
    pub rank: u32,
}

/// The product of the costs at all child places but one, for the states below the rule at a
/// position.
#[derive(Drop)]
pub(crate) struct Rest {
    pub position: Option<u32>,
    pub cost: Option<Cost>,
}

// The product of the costs of the last trees of the stack at the states of the holes, but for one
// child place. It is taken once for many rules, so it is separate from the loop over these.
#[inline(never)]
fn product_beside<S: Semiring>(
    holes: &[Item<u32>],
    stack: &[Vec<Entry>],
    place: usize,
) -> Option<Cost>
    requires enough { length holes.now ≤ length stack.now }
    requires ascend { Each IsAscending (vectors stack.now) }
    ensures { result ≡ times_beside S.product place 0 (map state_in holes.now) (vectors stack.now) }
{
    let mut product = S::one();
    let mut i = holes.len();
    while i > 0 {
        i -= 1;
        if i == place {
            continue;
        }
        let Some(cost) = cost_at(&stack[stack.len() - 1 - i], holes[i].state()) else {
            return None;
        };
        let Some(more) = S::times(cost, product) else {
            return None;
        };
        product = more;
    }
    Some(product)
}

// Finds the product beside the child place for the rule at a position, where it is not the one that
// is known.
fn recall<S: Semiring>(last: &mut Rest, at: ChildPlace, position: u32)
    requires normal { AreNormal at.rules.now }
    requires rule { IsRuleOver at.rules.now at.rank position }
    requires enough { at.rank ≤ length at.stack.now }
    requires ascend { Each IsAscending (vectors at.stack.now) }
    requires last { IsRemembered S.product at.rules.now at.place (vectors at.stack.now) last.old }
    ensures last { IsRemembered S.product at.entry.rules.now at.entry.place
        (vectors at.entry.stack.now) last.new }
    ensures cost { last.new.cost ≡ rest_worth S.product at.entry.rules.now at.entry.place
        (vectors at.entry.stack.now) position }
{
    if let Some(known) = last.position {
        if known == position {
            return;
        }
    }
    let cost = product_beside::<S>(
        at.rules[position as usize].states_below(),
        at.stack,
        at.place,
    );
    last.cost = cost;
    last.position = Some(position);
}

// The product of the costs of a state, of the other states and of a rule.
fn product_with<S: Semiring>(cost: Cost, beside: Option<Cost>, own: Cost) -> Option<Cost>
    ensures { result ≡ times_of S.product (times_of S.product (Some cost) beside) (Some own) }
{
    match beside {
        Some(beside) => match S::times(cost, beside) {
            Some(product) => S::times(product, own),
            None => None,
        },
        None => None,
    }
}

// Lowers the cost at a state to this one, where there is one.
fn lower(found: &mut CostsByState, state: u32, cost: Option<Cost>) -> Result<(), AllocError>
    requires within { state < length found.old.costs.items }
    requires noted { IsNoted found.old }
    ensures noted { IfOk result (λ _. IsNoted found.new) }
    ensures long { IfOk result (λ _. length found.new.costs.items ≡ length found.old.costs.items) }
    ensures costs { IfOk result (λ _. (q : ℕ) → cost_of found.new q
        ≡ (if nat_eq state q then lesser_of (cost_of found.old q) cost else cost_of found.old q)) }
{
    match cost {
        Some(cost) => found.add(state, cost),
        None => Ok(()),
    }
}

// Tries the rules of a slot for the state of an entry of the vector at the child place.
fn try_slot<S: Semiring>(
    found: &mut CostsByState,
    last: &mut Rest,
    ready: &[Ready],
    entry: &Entry,
    at: ChildPlace,
) -> Result<(), AllocError>
    requires normal { AreNormal at.rules.now }
    requires sound { AreSound at.rules.now at.rank (length found.old.costs.items) ready.now }
    requires enough { at.rank ≤ length at.stack.now }
    requires ascend { Each IsAscending (vectors at.stack.now) }
    requires here { cost_in (get_or (vectors at.stack.now) at.place []) entry.now.state
        ≡ Some entry.now.cost }
    requires last { IsRemembered S.product at.rules.now at.place (vectors at.stack.now) last.old }
    requires noted { IsNoted found.old }
    ensures last { IsRemembered S.product at.entry.rules.now at.entry.place
        (vectors at.entry.stack.now) last.new }
    ensures noted { IfOk result (λ _. IsNoted found.new) }
    ensures long { IfOk result (λ _. length found.new.costs.items ≡ length found.old.costs.items) }
    ensures tried { IfOk result (λ _. HasTried (worth S.product at.entry.rules.now at.entry.place
        (vectors at.entry.stack.now)) entry.now.state ready.now (cost_of found.old)
        (cost_of found.new)) }
{
    for record in ready {
        if record.state != entry.state {
            continue;
        }
        recall::<S>(last, at, record.rest);
        let cost = product_with::<S>(entry.cost, last.cost, record.cost);
        lower(found, record.left, cost)?;
    }
    Ok(())
}

// Tries the rules of a table at a child place for some entries of the vector there. It is compiled
// separately from its callers, so that what its loop needs stays in registers.
#[inline(never)]
fn try_entries<S: Semiring>(
    found: &mut CostsByState,
    table: &Table,
    entries: &[Entry],
    at: ChildPlace,
) -> Result<(), AllocError>
    requires normal { AreNormal at.rules.now }
    requires sound { (q : ℕ) → AreSound at.rules.now at.rank (length found.old.costs.items)
        (bucket table.now q) }
    requires here { (e : Entry) → Has entries.now e →
        cost_in (get_or (vectors at.stack.now) at.place []) e.state ≡ Some e.cost }
    requires enough { at.rank ≤ length at.stack.now }
    requires ascend { Each IsAscending (vectors at.stack.now) }
    requires blank { IsBlank found.old }
    ensures noted { IfOk result (λ _. IsNoted found.new) }
    ensures long { IfOk result (λ _. length found.new.costs.items ≡ length found.old.costs.items) }
    ensures tried { IfOk result (λ _. HasTriedAll (worth S.product at.entry.rules.now at.entry.place
        (vectors at.entry.stack.now)) entries.now (bucket table.now) (cost_of found.new)) }
{
    let mut last = Rest {
        position: None,
        cost: None,
    };
    for entry in entries {
        let ready = table.at(entry.state);
        try_slot::<S>(found, &mut last, ready, entry, at)?;
    }
    Ok(())
}

/// Tries the rules of a table at a child place that the vector there serves. The list lends its
/// room only: what it holds is ignored. Err only if memory is refused; the costs are then those of
/// some of the rules. Worst case: O(r k log s + s) steps for r rules of the table, of rank k over s
/// states.
pub(crate) fn try_table<S: Semiring>(
    found: &mut CostsByState,
    picked: &mut Vec<Entry>,
    table: &Table,
    at: ChildPlace,
) -> Result<(), AllocError>
    requires normal { AreNormal at.rules.now }
    requires sound { (q : ℕ) → AreSound at.rules.now at.rank (length found.old.costs.items)
        (bucket table.now q) }
    requires within { at.place < at.rank }
    requires enough { at.rank ≤ length at.stack.now }
    requires ascend { Each IsAscending (vectors at.stack.now) }
    requires blank { IsBlank found.old }
    ensures noted { IfOk result (λ _. IsNoted found.new) }
    ensures long { IfOk result (λ _. length found.new.costs.items ≡ length found.old.costs.items) }
    ensures tried { IfOk result (λ _. HasTriedAll (worth S.product at.entry.rules.now at.entry.place
        (vectors at.entry.stack.now)) (get_or (vectors at.entry.stack.now) at.entry.place [])
        (bucket table.now) (cost_of found.new)) }
{
    let vector = &at.stack[at.stack.len() - 1 - at.place];
    if vector.len() < LEAST_PICKED || !table.is_sparse() {
        return try_entries::<S>(found, table, vector, at);
    }
    let many = pick(table, vector, picked)?;
    try_entries::<S>(found, table, &picked[..many], at)
}
