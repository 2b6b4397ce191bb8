// Prints grammars.
ghost use Rattle.std.specs.Prelude.{◌++◌, ℕ, [], ◌∷◌, length};
ghost use Rattle.tib_tree.specs.Trees.{only};
ghost use Rattle.tib_io.specs.Wrote.{Wrote};
ghost use Rattle.tib_grammar_file.specs.Printed.{IsSideWithin, IsRuleWithin, trees_text, cost_text, rule_text, grammar_text, AreLabelled};

use crate::file::{RuleNotation, put_file};
use crate::pieces::{put, put_end};
use crate::symbols::GrammarSides;
use crate::trees::put_side;
use tib_cost::{Scale, Semiring};
use tib_grammar::{Grammar, Names, Rule};
use tib_io::{Failed, Sink};
use tib_tree::Labels;

fn put_right<W: Sink>(
    out: &mut W,
    scale: Scale,
    rule: &Rule<u32>,
    names: &Names,
    labels: &Labels,
) -> Result<(), Failed>
    requires { IsSideWithin names.now labels.now rule.now.right }
    ensures { Wrote (W.seen out.old) (W.seen out.new)
        (trees_text names.now labels.now (only rule.now.right) 0 ++ (cost_text scale rule.now.cost
        ++ 10 ∷ [])) result }
{
    match put_side::<GrammarSides, W>(out, &rule.right, names, labels) {
        Ok(()) => put_end(out, scale, rule.cost),
        Err(Failed) => Err(Failed),
    }
}

fn put_arrow<W: Sink>(
    out: &mut W,
    scale: Scale,
    rule: &Rule<u32>,
    names: &Names,
    labels: &Labels,
) -> Result<(), Failed>
    requires { IsSideWithin names.now labels.now rule.now.right }
    ensures { Wrote (W.seen out.old) (W.seen out.new)
        (32 ∷ (45 ∷ (62 ∷ (32 ∷ []))) ++ (trees_text names.now labels.now (only rule.now.right) 0
        ++ (cost_text scale rule.now.cost ++ 10 ∷ []))) result }
{
    match put(out, b" -> ") {
        Ok(()) => put_right(out, scale, rule, names, labels),
        Err(Failed) => Err(Failed),
    }
}

// Appends the line of a rule.
fn put_rule<W: Sink>(
    out: &mut W,
    scale: Scale,
    rule: &Rule<u32>,
    names: &Names,
    labels: &Labels,
) -> Result<(), Failed>
    requires { IsRuleWithin names.now labels.now rule.now }
    ensures { Wrote (W.seen out.old) (W.seen out.new)
        (rule_text scale names.now labels.now rule.now) result }
{
    match put(out, names.text(rule.left)) {
        Ok(()) => put_arrow(out, scale, rule, names, labels),
        Err(Failed) => Err(Failed),
    }
}

/// How the rules of a grammar are written.
pub(crate) struct GrammarRules;

impl RuleNotation for GrammarRules {
    ghost use Rattle.tib_grammar_file.specs.Printed.{rule_text, IsRuleWithin};

    type Rule = Rule<u32>;

    ghost rule_text = { rule_text };

    ghost fits = { IsRuleWithin };

    fn put_rule<W: Sink>(
        out: &mut W,
        scale: Scale,
        rule: &Rule<u32>,
        names: &Names,
        labels: &Labels,
    ) -> Result<(), Failed> {
        put_rule(out, scale, rule, names, labels)
    }
}

/// Prints a grammar whose labels are in range of the table: a line with the start's name, and then
/// a line for each rule. A label is in quotes where it would not read as one. Where weights are
/// kept, each line ends with the weight of the rule's cost. If the sink fails, a front of the text
/// was appended. It takes no memory; its calls nest as deep as the deepest right-hand side. Worst
/// case: O(b) steps for b bytes of text, where a label that is looked up among the names by its
/// hash counts once.
pub fn print_grammar<S: Semiring, W: Sink>(
    grammar: &Grammar<S>,
    labels: &Labels,
    out: &mut W,
) -> Result<(), Failed>
    requires { AreLabelled (length labels.now) grammar.now.rules }
    ensures { Wrote (W.seen out.old) (W.seen out.new)
        (grammar_text S.SCALE labels.now grammar.now) result }
{
    grammar.is_sound();
    put_file::<GrammarRules, W>(out, S::SCALE, grammar.rule_list(), grammar.names(), labels)
}

/// Prints the line of a rule, whose states and labels have texts, as `print_grammar` does. If the
/// sink fails, a front of the line was appended. It takes no memory; its calls nest as deep as the
/// right-hand side. Worst case: that of `print_grammar`, for the bytes of the line.
pub fn print_rule<S: Semiring, W: Sink>(
    rule: &Rule<u32>,
    names: &Names,
    labels: &Labels,
    out: &mut W,
) -> Result<(), Failed>
    requires { IsRuleWithin names.now labels.now rule.now }
    ensures { Wrote (W.seen out.old) (W.seen out.new)
        (rule_text S.SCALE names.now labels.now rule.now) result }
{
    put_rule(out, S::SCALE, rule, names, labels)
}
