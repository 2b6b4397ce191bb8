// Prints a file of the start and rules, however the lines of its rules are written.
ghost use Rattle.std.specs.Prelude.{◌<◌, ℕ, List, length, All};
ghost use Rattle.tib_cost.specs.declared.Scale.{Scale as ScaleOf};
ghost use Rattle.tib_io.specs.Wrote.{Wrote};
ghost use Rattle.tib_grammar_file.specs.FileText.{lines_text, file_text};

use crate::pieces::put_start;
use tib_cost::Scale;
use tib_grammar::Names;
use tib_io::{Failed, Sink};
use tib_tree::Labels;

/// How a format writes the line of a rule.
pub trait RuleNotation {
    /// A rule of the format.
    type Rule;

    // The line of a rule, over the names of states and the texts of labels.
    ghost rule_text: { ScaleOf → List (List ℕ) → List (List ℕ) → Self.Rule → List ℕ };

    // The texts that a rule needs are there.
    ghost fits: { List (List ℕ) → List (List ℕ) → Self.Rule → Type 0 };

    /// Appends the line of a rule. If the sink fails, a front of it was appended.
    fn put_rule<W: Sink>(
        out: &mut W,
        scale: Scale,
        rule: &Self::Rule,
        names: &Names,
        labels: &Labels,
    ) -> Result<(), Failed>
        requires { fits names.now labels.now rule.now }
        ensures { Wrote (W.seen out.old) (W.seen out.new)
            (rule_text scale names.now labels.now rule.now) result };
}

fn put_rules<N: RuleNotation, W: Sink>(
    out: &mut W,
    scale: Scale,
    rules: &[N::Rule],
    names: &Names,
    labels: &Labels,
) -> Result<(), Failed>
    requires { All (N.fits names.now labels.now) rules.now }
    ensures { Wrote (W.seen out.old) (W.seen out.new)
        (lines_text (N.rule_text scale names.now labels.now) rules.now) result }
{
    for rule in rules {
        match N::put_rule(out, scale, rule, names, labels) {
            Ok(()) => {}
            Err(Failed) => return Err(Failed),
        }
    }
    Ok(())
}

/// Appends a file: the line of the start, which is the first of the names of states, and then the
/// line of each rule as `N` writes it. If the sink fails, a front of this was appended. Worst case:
/// O(n) steps for n rules, and what `N` takes to write each of them.
pub fn put_file<N: RuleNotation, W: Sink>(
    out: &mut W,
    scale: Scale,
    rules: &[N::Rule],
    names: &Names,
    labels: &Labels,
) -> Result<(), Failed>
    requires start { 0 < length names.now }
    requires within { All (N.fits names.now labels.now) rules.now }
    ensures { Wrote (W.seen out.old) (W.seen out.new)
        (file_text (N.rule_text scale names.now labels.now) names.now rules.now) result }
{
    match put_start(out, names) {
        Ok(()) => put_rules::<N, W>(out, scale, rules, names, labels),
        Err(Failed) => Err(Failed),
    }
}
