// How the sides of rules are written: variables on the left, pairs on the right.
ghost use Rattle.std.specs.Prelude.{◌<◌, ◌++◌, ℕ, [], ◌∷◌, length, decimal};
ghost use Rattle.tib_io.specs.Wrote.{Wrote};
ghost use Rattle.tib_transducer_file.specs.Printed.{asked_text};
ghost use Rattle.tib_transducer_file.specs.Labelled.{IsAskedBelow};

use crate::label::put_label;
use tib_grammar::Names;
use tib_grammar_file::{Notation, put, put_number};
use tib_io::{Failed, Sink};
use tib_transducer::{Pair, Variable};
use tib_tree::{Label, Labels};

// The label that a variable asks for, if it asks for one.
fn put_asked<W: Sink>(out: &mut W, asked: Option<Label>, labels: &Labels) -> Result<(), Failed>
    requires { IsAskedBelow (length labels.now) asked }
    ensures { Wrote (W.seen out.old) (W.seen out.new) (asked_text labels.now asked) result }
{
    match asked {
        Some(label) => put_label(out, labels.text(label)),
        None => put(out, b""),
    }
}

// What follows a variable's number.
fn put_colon<W: Sink>(out: &mut W, asked: Option<Label>, labels: &Labels) -> Result<(), Failed>
    requires { IsAskedBelow (length labels.now) asked }
    ensures { Wrote (W.seen out.old) (W.seen out.new)
        (58 ∷ [] ++ asked_text labels.now asked) result }
{
    match put(out, b":") {
        Ok(()) => put_asked(out, asked, labels),
        Err(Failed) => Err(Failed),
    }
}

// What follows a variable's x.
fn put_numbered<W: Sink>(out: &mut W, variable: &Variable, labels: &Labels) -> Result<(), Failed>
    requires { IsAskedBelow (length labels.now) variable.now.label }
    ensures { Wrote (W.seen out.old) (W.seen out.new)
        (decimal variable.now.number ++ (58 ∷ []
        ++ asked_text labels.now variable.now.label)) result }
{
    match put_number(out, variable.number as u64) {
        Ok(()) => put_colon(out, variable.label, labels),
        Err(Failed) => Err(Failed),
    }
}

/// How left sides are written: their leaves are variables.
pub(crate) struct LeftSides;

impl Notation for LeftSides {
    ghost use Rattle.tib_transducer_file.specs.Printed.{label_text, variable_text};
    ghost use Rattle.tib_transducer_file.specs.Within.{IsVariableWithin};

    type Leaf = Variable;

    ghost label_text = { λ names. label_text };

    ghost leaf_text = { variable_text };

    ghost fits = { IsVariableWithin };

    fn put_label<W: Sink>(out: &mut W, _names: &Names, text: &[u8]) -> Result<(), Failed> {
        put_label(out, text)
    }

    fn put_leaf<W: Sink>(
        out: &mut W,
        variable: &Variable,
        _names: &Names,
        labels: &Labels,
    ) -> Result<(), Failed> {
        match put(out, b"x") {
            Ok(()) => put_numbered(out, variable, labels),
            Err(Failed) => Err(Failed),
        }
    }
}

// What follows a pair's state.
fn put_variable<W: Sink>(out: &mut W, variable: u32) -> Result<(), Failed>
    ensures { Wrote (W.seen out.old) (W.seen out.new) (46 ∷ (120 ∷ []) ++ decimal variable) result }
{
    match put(out, b".x") {
        Ok(()) => put_number(out, variable as u64),
        Err(Failed) => Err(Failed),
    }
}

/// How right sides are written: their leaves are pairs.
pub(crate) struct RightSides;

impl Notation for RightSides {
    ghost use Rattle.tib_transducer_file.specs.Printed.{label_text, pair_text};
    ghost use Rattle.tib_transducer_file.specs.Within.{IsPairWithin};

    type Leaf = Pair<u32>;

    ghost label_text = { λ names. label_text };

    ghost leaf_text = { pair_text };

    ghost fits = { IsPairWithin };

    fn put_label<W: Sink>(out: &mut W, _names: &Names, text: &[u8]) -> Result<(), Failed> {
        put_label(out, text)
    }

    fn put_leaf<W: Sink>(
        out: &mut W,
        pair: &Pair<u32>,
        names: &Names,
        _labels: &Labels,
    ) -> Result<(), Failed> {
        match put(out, names.text(pair.state)) {
            Ok(()) => put_variable(out, pair.variable),
            Err(Failed) => Err(Failed),
        }
    }
}
