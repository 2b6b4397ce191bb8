// The canonical form.
ghost use Rattle.std.specs.Prelude.{◌≡◌, ◌<◌, ◌^◌, length, IfOk};
ghost use Rattle.tib_grammar.specs.Range.{AreInRange, SidesEndInHoles};
ghost use Rattle.tib_grammar_file.specs.Printed.{AreLabelled, grammar_text};
ghost use Rattle.tib_canon.specs.Canonical.{OverStates, IsCanonical};
ghost use Rattle.tib_grammar.specs.Series.{HasSameSeries};

use crate::ordering::{Printed, in_order};
use std::alloc::{AllocError, Global};
use tib_cost::Semiring;
use tib_grammar::{Grammar, Rule};
use tib_inside::trim_rules;
use tib_tree::Labels;

/// The canonical form of a grammar whose labels are in the table. It leaves out states and rules
/// that no run within the greatest cost uses. The states that stay are named `q0` (the start),
/// `q1`, `q2` and so on in their order. Of rules that agree in both sides the cheapest stays. The
/// rules are sorted by their left states and then by the bytes of their lines as they are printed.
/// The series is that of the grammar. Err only if memory is refused; the grammar is then gone.
/// Worst case: that of `trim_rules`; each rule that stays is hashed and printed once, the lines are
/// sorted once, by O(r log r) comparisons of r lines, and the rules are moved.
pub fn canonical<S: Semiring>(
    alloc: Global,
    grammar: Grammar<S>,
    labels: &Labels,
) -> Result<Printed<S>, AllocError>
    requires { AreLabelled (length labels.now) grammar.rules }
    ensures canonical { IfOk result (λ h. IsCanonical S.product S.SCALE labels.now grammar
        h.grammar) }
    ensures series { IfOk result (λ h. HasSameSeries S.product grammar h.grammar) }
    ensures labelled { IfOk result (λ h. AreLabelled (length labels.now) h.grammar.rules) }
    ensures text { IfOk result (λ h. h.text.bytes ≡ grammar_text S.SCALE labels.now h.grammar) }
{
    grammar.is_sound();
    let states = grammar.states();
    let (names, rules) = grammar.into_parts();
    drop(names);
    canonical_of_rules(alloc, states, rules, labels)
}

/// The canonical form of a grammar of these rules over this number of states, whatever their names.
/// Err only if memory is refused; the rules are then gone.
pub(crate) fn canonical_of_rules<S: Semiring>(
    alloc: Global,
    states: u32,
    rules: Vec<Rule<u32>>,
    labels: &Labels,
) -> Result<Printed<S>, AllocError>
    requires some { 0 < states }
    requires few { length rules.items < 2 ^ 32 }
    requires range { AreInRange states rules.items }
    requires leaves { SidesEndInHoles rules.items }
    requires labelled { AreLabelled (length labels.now) rules.items }
    ensures canonical { IfOk result (λ h. OverStates states rules.items
        (λ g. IsCanonical S.product S.SCALE labels.now g h.grammar)) }
    ensures series { IfOk result (λ h. OverStates states rules.items
        (λ g. HasSameSeries S.product g h.grammar)) }
    ensures labelled { IfOk result (λ h. AreLabelled (length labels.now) h.grammar.rules) }
    ensures text { IfOk result (λ h. h.text.bytes ≡ grammar_text S.SCALE labels.now h.grammar) }
{
    let trimmed = trim_rules::<S>(alloc, rules, states)?;
    in_order(alloc, trimmed.states.len() as u32, trimmed.rules, labels)
}
