// Prints transducers.
ghost use Rattle.std.specs.Prelude.{◌<◌, ◌++◌, ℕ, [], ◌∷◌, length};
ghost use Rattle.tib_io.specs.Wrote.{Wrote};
ghost use Rattle.tib_transducer_file.specs.Printed.{right_text, left_text, rule_text, transducer_text};
ghost use Rattle.tib_transducer_file.specs.Labelled.{AreLabelled};
ghost use Rattle.tib_transducer_file.specs.Within.{IsSideWithin, IsRuleWithin, IsPairWithin};

use crate::leaf::{LeftSides, RightSides};
use tib_cost::{Scale, Semiring};
use tib_grammar::Names;
use tib_grammar_file::{RuleNotation, put, put_end, put_file, put_side};
use tib_io::{Failed, Sink};
use tib_transducer::{Transducer, TransducerRule};
use tib_tree::Labels;

fn put_right<W: Sink>(
    out: &mut W,
    scale: Scale,
    rule: &TransducerRule<u32>,
    names: &Names,
    labels: &Labels,
) -> Result<(), Failed>
    requires { IsSideWithin (IsPairWithin names.now labels.now) (length labels.now) rule.now.right }
    ensures { Wrote (W.seen out.old) (W.seen out.new)
        (right_text scale names.now labels.now rule.now) result }
{
    match put_side::<RightSides, W>(out, &rule.right, names, labels) {
        Ok(()) => put_end(out, scale, rule.cost),
        Err(Failed) => Err(Failed),
    }
}

fn put_arrow<W: Sink>(
    out: &mut W,
    scale: Scale,
    rule: &TransducerRule<u32>,
    names: &Names,
    labels: &Labels,
) -> Result<(), Failed>
    requires { IsSideWithin (IsPairWithin names.now labels.now) (length labels.now) rule.now.right }
    ensures { Wrote (W.seen out.old) (W.seen out.new)
        (32 ∷ (45 ∷ (62 ∷ (32 ∷ []))) ++ right_text scale names.now labels.now rule.now) result }
{
    match put(out, b" -> ") {
        Ok(()) => put_right(out, scale, rule, names, labels),
        Err(Failed) => Err(Failed),
    }
}

fn put_left<W: Sink>(
    out: &mut W,
    scale: Scale,
    rule: &TransducerRule<u32>,
    names: &Names,
    labels: &Labels,
) -> Result<(), Failed>
    requires { IsRuleWithin names.now labels.now rule.now }
    ensures { Wrote (W.seen out.old) (W.seen out.new)
        (left_text scale names.now labels.now rule.now) result }
{
    match put_side::<LeftSides, W>(out, &rule.left, names, labels) {
        Ok(()) => put_arrow(out, scale, rule, names, labels),
        Err(Failed) => Err(Failed),
    }
}

fn put_stop<W: Sink>(
    out: &mut W,
    scale: Scale,
    rule: &TransducerRule<u32>,
    names: &Names,
    labels: &Labels,
) -> Result<(), Failed>
    requires { IsRuleWithin names.now labels.now rule.now }
    ensures { Wrote (W.seen out.old) (W.seen out.new)
        (46 ∷ [] ++ left_text scale names.now labels.now rule.now) result }
{
    match put(out, b".") {
        Ok(()) => put_left(out, scale, rule, names, labels),
        Err(Failed) => Err(Failed),
    }
}

// The line of a rule.
fn put_rule<W: Sink>(
    out: &mut W,
    scale: Scale,
    rule: &TransducerRule<u32>,
    names: &Names,
    labels: &Labels,
) -> Result<(), Failed>
    requires { IsRuleWithin names.now labels.now rule.now }
    ensures { Wrote (W.seen out.old) (W.seen out.new)
        (rule_text scale names.now labels.now rule.now) result }
{
    match put(out, names.text(rule.state)) {
        Ok(()) => put_stop(out, scale, rule, names, labels),
        Err(Failed) => Err(Failed),
    }
}

/// How the rules of a transducer are written.
pub(crate) struct TransducerRules;

impl RuleNotation for TransducerRules {
    ghost use Rattle.tib_transducer_file.specs.Printed.{rule_text};
    ghost use Rattle.tib_transducer_file.specs.Within.{IsRuleWithin};

    type Rule = TransducerRule<u32>;

    ghost rule_text = { rule_text };

    ghost fits = { IsRuleWithin };

    fn put_rule<W: Sink>(
        out: &mut W,
        scale: Scale,
        rule: &TransducerRule<u32>,
        names: &Names,
        labels: &Labels,
    ) -> Result<(), Failed> {
        put_rule(out, scale, rule, names, labels)
    }
}

/// Prints a transducer whose labels are in range of the table: a line with the start's name, and
/// then a line for each rule. A label is put in quotes where it would read as something else: where
/// it is empty, has a byte that is no name byte or a full stop, is `->`, or has the form of a
/// variable. Where costs are weighed, each line ends with the rule's cost. It fails only where the
/// sink does, and a prefix of the text was then appended. It takes no memory; its calls nest as
/// deep as the deepest side. Worst case: O(b) steps for b bytes of text.
pub fn print_transducer<S: Semiring, W: Sink>(
    transducer: &Transducer<S>,
    labels: &Labels,
    out: &mut W,
) -> Result<(), Failed>
    requires { AreLabelled (length labels.now) transducer.now.rules }
    ensures { Wrote (W.seen out.old) (W.seen out.new)
        (transducer_text S.SCALE labels.now transducer.now) result }
{
    transducer.is_sound();
    put_file::<TransducerRules, W>(
        out,
        S::SCALE,
        transducer.rule_list(),
        transducer.names(),
        labels,
    )
}
