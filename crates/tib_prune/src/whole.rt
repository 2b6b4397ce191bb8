// Whether there is anything to trim in a grammar.
ghost use Rattle.std.specs.Prelude.{◌≡◌, ℕ, ◌<◌, ◌⊎◌, IfOk, IfSome, IsTrue, length, map};
ghost use Rattle.tib_lex.specs.Lists.{Has};
ghost use Rattle.tib_grammar.specs.Forms.{AreNormal, IsNormalSide};
ghost use Rattle.tib_grammar.specs.Items.{state_in};
ghost use Rattle.tib_grammar.specs.Range.{AllBelow, AreInRange, IsInRange};
ghost use Rattle.tib_grammar.specs.Sides.{holes_of};
ghost use Rattle.tib_inside.specs.Reaching.{IsMarked};
ghost use Rattle.tib_inside.specs.Settling.{costs_in};
ghost use Rattle.tib_inside.specs.Trimmed.{HasSameSeries, HasSeriesOfEach, IsTrimmed};
ghost use Rattle.tib_prune.specs.Loop.{AreInsidesOfAll};
ghost use Rattle.tib_prune.specs.Whole.{AreAllLedTo, AreAllLive};

use crate::products::rule_total;
use crate::settling::inside_costs;
use std::alloc::{AllocError, Global};
use tib_cost::{Cost, Semiring};
use tib_grammar::{Item, Rule};
use tib_inside::trim_normal;
use tib_normal::Normal;

/// Marks some states.
fn mark_states(states: &[Item<u32>], marks: &mut Vec<bool>)
    requires { AllBelow (length marks.old.items) (map state_in states.now) }
    ensures long { length marks.new.items ≡ length marks.old.items }
    ensures only { (q : ℕ) → IsMarked marks.new.items q →
        IsMarked marks.old.items q ⊎ Has (map state_in states.now) q }
{
    for item in states {
        marks[item.state() as usize] = true;
    }
}

/// Marks the states in the right side of a rule whose left state is marked.
fn mark_below(rule: &Rule<u32>, marks: &mut Vec<bool>)
    requires normal { IsNormalSide rule.now.right }
    requires range { IsInRange (length marks.old.items) rule.now }
    ensures long { length marks.new.items ≡ length marks.old.items }
    ensures only { (q : ℕ) → IsMarked marks.new.items q → IsMarked marks.old.items q
        ⊎ (IsMarked marks.old.items rule.now.left × Has (holes_of rule.now.right) q) }
{
    if !marks[rule.left as usize] {
        return;
    }
    mark_states(rule.states_below(), marks);
}

/// Whether each place is marked.
fn are_all_marked(marks: &[bool]) -> bool
    ensures { IsTrue result → (q : ℕ) → q < length marks.now → IsMarked marks.now q }
{
    for mark in marks {
        if !*mark {
            return false;
        }
    }
    true
}

/// Whether one pass over the rules in order leads from the start to each state. Where it does not,
/// this says nothing.
fn leads_to_all(alloc: Global, rules: &[Rule<u32>], states: usize) -> Result<bool, AllocError>
    requires some { 0 < states }
    requires normal { AreNormal rules.now }
    requires range { AreInRange states rules.now }
    ensures { IfOk result (λ yes. IsTrue yes → AreAllLedTo rules.now states) }
{
    let mut marks = vec![in alloc; false; states]?;
    marks[0] = true;
    for rule in rules {
        mark_below(rule, &mut marks);
    }
    Ok(are_all_marked(&marks))
}

/// Whether the cost of each rule and those of the states in its right side have a product.
fn are_all_live<S: Semiring>(rules: &[Rule<u32>], insides: &[Option<Cost>]) -> bool
    requires normal { AreNormal rules.now }
    requires range { AreInRange (length insides.now) rules.now }
    ensures { IsTrue result → AreAllLive S.product (costs_in insides.now) rules.now }
{
    for rule in rules {
        if rule_total::<S>(rule, insides).is_none() {
            return false;
        }
    }
    true
}

/// The inside costs of the states of a grammar in which each rule is live and a pass over the rules
/// in order leads to each state, so that there is nothing to trim; none where this pass does not
/// show it.
fn whole_insides<S: Semiring>(
    alloc: Global,
    normal: &Normal<S>,
) -> Result<Option<Vec<Option<Cost>>>, AllocError>
    ensures length { IfOk result (λ found. IfSome found (λ costs.
        length costs.items ≡ length normal.now.names)) }
    ensures insides { IfOk result (λ found. IfSome found (λ costs.
        AreInsidesOfAll S.product normal.now.rules costs.items)) }
    ensures trimmed { IfOk result (λ found. IfSome found (λ _.
        IsTrimmed S.product normal.now normal.now)) }
    ensures each { IfOk result (λ found. IfSome found (λ _.
        HasSeriesOfEach S.product normal.now normal.now)) }
{
    let grammar = normal.grammar();
    grammar.is_sound();
    let rules = grammar.rule_list();
    if !leads_to_all(alloc, rules, grammar.states() as usize)? {
        return Ok(None);
    }
    let insides = inside_costs::<S>(alloc, normal)?;
    if !are_all_live::<S>(rules, &insides) {
        return Ok(None);
    }
    Ok(Some(insides))
}

/// The same grammar as `trim_normal` returns, and the inside costs of its states. Where there is
/// nothing to trim, which is seen if each rule is live and a pass over the rules in order leads to
/// each state, the grammar stays as it is. Err only if memory is refused, and then the grammar is
/// gone. Worst case: that of `trim_normal` and twice that of `inside`.
pub fn trim_with_insides<S: Semiring + Drop>(
    alloc: Global,
    normal: Normal<S>,
) -> Result<(Normal<S>, Vec<Option<Cost>>), AllocError>
    ensures trimmed { IfOk result (λ t. IsTrimmed S.product normal t.0) }
    ensures series { IfOk result (λ t. HasSameSeries S.product normal t.0) }
    ensures each { IfOk result (λ t. HasSeriesOfEach S.product normal t.0) }
    ensures length { IfOk result (λ t. length t.1.items ≡ length t.0.names) }
    ensures insides { IfOk result (λ t. AreInsidesOfAll S.product t.0.rules t.1.items) }
{
    if let Some(insides) = whole_insides::<S>(alloc, &normal)? {
        return Ok((normal, insides));
    }
    let trimmed = trim_normal::<S>(alloc, normal)?;
    let insides = inside_costs::<S>(alloc, &trimmed)?;
    Ok((trimmed, insides))
}
