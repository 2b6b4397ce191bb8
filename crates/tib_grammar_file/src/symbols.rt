// Writes labels and states as they are in grammars.
ghost use Rattle.std.specs.Prelude.{◌≡◌};
ghost use Rattle.tib_grammar_file.specs.Printed.{is_held as spec_is_held};

use crate::pieces::{put, put_quoted};
use crate::trees::Notation;
use tib_grammar::Names;
use tib_io::{Failed, Sink};
use tib_lex::is_name;
use tib_tree::Labels;

// Whether a text is the name of a state.
fn is_held(names: &Names, text: &[u8]) -> bool
    ensures { result ≡ spec_is_held names.now text.now }
{
    match names.find(text) {
        Some(_) => true,
        None => false,
    }
}

/// How sides of grammars are written: their leaves are states.
pub(crate) struct GrammarSides;

impl Notation for GrammarSides {
    ghost use Rattle.tib_grammar_file.specs.Printed.{label_text, state_text, IsStateWithin};

    type Leaf = u32;

    ghost label_text = { label_text };

    ghost leaf_text = { state_text };

    ghost fits = { IsStateWithin };

    fn put_label<W: Sink>(out: &mut W, names: &Names, text: &[u8]) -> Result<(), Failed> {
        if is_name(text) && !is_held(names, text) {
            put(out, text)
        } else {
            put_quoted(out, text)
        }
    }

    fn put_leaf<W: Sink>(
        out: &mut W,
        state: &u32,
        names: &Names,
        _labels: &Labels,
    ) -> Result<(), Failed> {
        put(out, names.text(*state))
    }
}
