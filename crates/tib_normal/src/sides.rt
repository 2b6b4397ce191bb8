// The right sides of the normal form: one label over states, with an inner state for each label
// below a root.
ghost use Rattle.tib_grammar.specs.Sides.{labels_in};
ghost use Rattle.std.specs.Prelude.{◌≡◌, ℕ, ◌+◌, ◌<◌, ◌≤◌, ◌^◌, List, [], ◌∷◌, ◌++◌, length, take, drop, reverse, sum_by, OnOk, IfOk};
ghost use Rattle.tib_grammar.specs.Items.{pair_of, pairs_of};
ghost use Rattle.tib_tree.specs.Trees.{HasChildren};
ghost use Rattle.tib_grammar.specs.ShapeBuckets.{lists_of};
ghost use Rattle.tib_normal.specs.NormalForm.{inner_rules, all_inner};
ghost use Rattle.tib_normal.specs.Rows.{AreSides};
ghost use Rattle.tib_normal.specs.Offers.{no_side};
ghost use Rattle.tib_normal.specs.Numbering.{GetsNumber, IsNumbered};
ghost use Rattle.tib_normal.specs.Places.{own_states, states_with, rules_with, head_states, below_root, rule_labels};

use indexmap::IndexSet;
use std::alloc::{AllocError, Global};
use tib_cost::Cost;
use tib_grammar::{Item, Rule, Side};
use tib_tree::Label;

/// Marks a chain rule, which has no side of its own.
pub const NO_SIDE: u32 = u32::MAX;

/// The sides of the rules that are no chain rules, each once, and the rules of the inner states.
#[derive(Drop)]
pub struct Sides {
    /// The sides: the label of the root and the states at its children.
    pub table: IndexSet<Vec<u32>>,
    /// For each rule the number of its side, or `NO_SIDE`.
    pub numbers: Vec<u32>,
    /// The rules of the inner states, from the last state to the first.
    pub inner: Vec<Rule<u32>>,
}

/// Takes states from the end of a stack, as many as the rank says, and lists them after the label.
fn take_children(
    alloc: Global,
    label: Label,
    rank: usize,
    stack: &mut Vec<u32>,
) -> Result<Vec<u32>, AllocError>
    requires { rank ≤ length stack.old.items }
    ensures side { IfOk result (λ side. side.items ≡ label ∷ take rank (reverse stack.old.items)) }
    ensures rest { OnOk result (reverse stack.new.items ≡ drop rank (reverse stack.old.items)) }
{
    let mut side = Vec::new(alloc);
    side.push(label)?;
    for _ in 0..rank {
        let state = match stack.pop() {
            Some(state) => state,
            None => unreachable!(),
        };
        side.push(state)?;
    }
    Ok(side)
}

/// Puts the state of an item on the stack; a label gets a new inner state and its rule.
fn place_item(
    alloc: Global,
    item: &Item<u32>,
    state: u32,
    zero: Cost,
    stack: &mut Vec<u32>,
    inner: &mut Vec<Rule<u32>>,
) -> Result<u32, AllocError>
    requires own { own_states item.now ≤ state }
    requires rank { (pair_of item.now).1 ≤ length stack.old.items }
    ensures state { IfOk result (λ s. s + own_states item.now ≡ state) }
    ensures states { IfOk result (λ s. reverse stack.new.items
        ≡ states_with item.now s (reverse stack.old.items)) }
    ensures rules { IfOk result (λ s. inner.new.items ≡ inner.old.items
        ++ rules_with item.now s (reverse stack.old.items) zero) }
{
    match item {
        Item::Hole(end) => {
            stack.push(*end)?;
            Ok(state)
        }
        Item::Label { label, rank } => {
            let own = state - 1;
            let side = take_children(alloc, *label, *rank as usize, stack)?;
            inner.push(Rule {
                left: own,
                right: Side::over(alloc, *label, &side[1..])?,
                cost: zero,
            })?;
            stack.push(own)?;
            Ok(own)
        }
    }
}

/// Gives the items below a root their states, from the last to the first, inner ones below this
/// one. The states at the root's children are on the stack, the first child's last.
fn place(
    alloc: Global,
    items: &[Item<u32>],
    state: u32,
    zero: Cost,
    stack: &mut Vec<u32>,
    inner: &mut Vec<Rule<u32>>,
) -> Result<u32, AllocError>
    requires some { 0 < length items.now }
    requires nested { HasChildren (drop 1 (pairs_of items.now)) }
    requires own { labels_in (below_root items.now) ≤ state }
    requires empty { stack.old.items ≡ [] }
    requires zero { zero ≡ 0 }
    ensures state { IfOk result (λ s. s + labels_in (below_root items.now) ≡ state) }
    ensures states { IfOk result (λ s. reverse stack.new.items
        ≡ head_states s (below_root items.now)) }
    ensures rules { IfOk result (λ s. reverse inner.new.items ≡ inner_rules s (below_root items.now)
        ++ reverse inner.old.items) }
{
    let mut first = state;
    let mut i = items.len();
    while i > 1 {
        i -= 1;
        first = place_item(alloc, &items[i], first, zero, stack, inner)?;
    }
    Ok(first)
}

impl Sides {
    /// The sides of some rules over this number of states, where their inner states are those below
    /// `end`. Err only if memory is refused. Cost: one pass over the items of the rules, each rule
    /// with a look-up by hash.
    pub fn new(
        alloc: Global,
        rules: &[Rule<u32>],
        states: u32,
        end: u32,
        zero: Cost,
    ) -> Result<Sides, AllocError>
        requires end { end ≡ states + sum_by rule_labels rules.now }
        requires zero { zero ≡ 0 }
        requires few { length rules.now < 2 ^ 32 }
        ensures inner { IfOk result (λ sides. reverse sides.inner.items
            ≡ all_inner states rules.now) }
        ensures long { IfOk result (λ sides. length sides.numbers.items ≡ length rules.now) }
        ensures sides { IfOk result (λ sides. AreSides states rules.now (lists_of sides.table.keys)
            sides.numbers.items) }
    {
        let mut sides = Sides {
            table: IndexSet::new(alloc),
            numbers: vec![in alloc; NO_SIDE; rules.len()]?,
            inner: Vec::new(alloc),
        };
        let mut stack = Vec::new(alloc);
        let mut state = end;
        let mut n = rules.len();
        while n > 0 {
            n -= 1;
            state = sides.add(alloc, &rules[n], n, state, zero, &mut stack)?;
        }
        Ok(sides)
    }

    /// Adds the side of a rule and the rules of its inner states, which are below this one.
    fn add(
        &mut self,
        alloc: Global,
        rule: &Rule<u32>,
        n: usize,
        state: u32,
        zero: Cost,
        stack: &mut Vec<u32>,
    ) -> Result<u32, AllocError>
        requires own { rule_labels rule.now ≤ state }
        requires empty { stack.old.items ≡ [] }
        requires zero { zero ≡ 0 }
        requires place { n < length self.old.numbers.items }
        requires few { length self.old.table.keys < no_side }
        ensures state { IfOk result (λ s. s + rule_labels rule.now ≡ state) }
        ensures rules { IfOk result (λ s. reverse self.new.inner.items
            ≡ inner_rules s rule.now.right.kids ++ reverse self.old.inner.items) }
        ensures empty { OnOk result (stack.new.items ≡ []) }
        ensures number { IfOk result (λ s. IsNumbered rule.now n s (lists_of self.old.table.keys)
            (lists_of self.new.table.keys) self.old.numbers.items self.new.numbers.items) }
    {
        let items = rule.right.items();
        let label = match &items[0] {
            Item::Hole(_) => return Ok(state),
            Item::Label { label, .. } => *label,
        };
        let first = place(alloc, items, state, zero, stack, &mut self.inner)?;
        let rank = stack.len();
        let side = take_children(alloc, label, rank, stack)?;
        self.number(n, side)?;
        Ok(first)
    }

    /// Gives a rule the number of its side; a new side is added after the others.
    fn number(&mut self, n: usize, side: Vec<u32>) -> Result<(), AllocError>
        requires place { n < length self.old.numbers.items }
        requires few { length self.old.table.keys < no_side }
        ensures inner { self.new.inner ≡ self.old.inner }
        ensures number { OnOk result (GetsNumber side.items n (lists_of self.old.table.keys)
            (lists_of self.new.table.keys) self.old.numbers.items self.new.numbers.items) }
    {
        let (number, _) = self.table.insert_full(side)?;
        self.numbers[n] = number as u32;
        Ok(())
    }
}
