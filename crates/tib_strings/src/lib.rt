//! Tree-to-string transducers as values: rules that read a tree and output a list of words. Their
//! runs, what these read, output and cost, their series, and the first rule that is not linear or
//! not nondeleting; and the cuts of a list of words and pairs over the places of a string, which
//! say how a right side can output a part of the string. Cuts are listed one by one, from the least
//! places on, and no part of a list of places is tried that leads to no cut after its last pair.
//!
//! Strings and such transducers are read from text as well: `read_string` takes the bytes of a file
//! and gives the string whose text they are, as a list of labels, and `read_string_transducer` the
//! transducer; or the first fault of the file. It builds on the lines and tokens of `tib_lex`, the
//! labels of `tib_tree`, the weights of `tib_grammar_file`, and `tib_transducer` and the text of
//! its transducers in `tib_transducer_file`.
#![tactic(auto)]

ghost use Rattle.std.specs.Prelude.{◌≡◌};

mod bounds;
mod classes;
pub mod cut_laws;
pub mod laws;
mod list;
mod right;
mod search;
mod stepping;
mod string_file;
mod string_laws;
mod transducer_file;
mod transducer_laws;
mod transducers;

pub use classes::string_outside;
pub use search::Cuts;
use std::marker::{Model, PhantomData};
pub use string_file::read_string;
pub use string_laws::{
    one_string_by_text, string_faults_are_one, string_faults_are_read,
    string_files_are_texts_or_faulty, text_has_one_string,
};
use tib_cost::Cost;
use tib_grammar::{Names, Side};
use tib_transducer::{Pair, Variable};
use tib_tree::Label;
pub use transducer_file::read_string_transducer;
pub use transducer_laws::{
    one_string_transducer_by_text, string_transducer_faults_are_one,
    string_transducer_faults_are_read, string_transducer_files_are_texts_or_faulty,
    text_has_one_string_transducer,
};

/// A token of a right side: a word, or a hole where what is read on from a state at a variable is
/// output.
#[derive(Debug, PartialEq, Eq, Hash, Drop)]
pub enum Word<P> {
    /// A word.
    Word(Label),
    /// A pair.
    Hole(Pair<P>),
}

/// A list of words and pairs.
#[derive(Drop)]
pub struct Words<P> {
    items: Vec<Word<P>>,
}

impl<P> Model for Words<P> {
    ghost use Rattle.std.specs.Prelude.{List};
    ghost use Rattle.tib_strings.specs.declared.Word.{Word};

    ghost Value = { List (Word P) };

    ghost view = { λ s. s.items.items };
}

impl<P> Words<P> {
    /// A right side of these words and pairs. It takes no memory. Worst case: O(1) steps.
    pub fn from_list(items: Vec<Word<P>>) -> Words<P>
        ensures { result ≡ items.items }
    {
        Words { items }
    }

    /// The words and pairs, in order. It takes no memory. Worst case: O(1) steps.
    pub fn tokens(&self) -> &[Word<P>]
        ensures { result.now ≡ self.now }
    {
        &self.items
    }
}

/// A rule: from the state, a tree that the left side fits is read, and the words are output, at a
/// cost.
#[derive(Drop)]
pub struct StringRule<P> {
    /// The state that the rule leads from.
    pub state: P,
    /// What is read.
    pub left: Side<Variable>,
    /// What is output.
    pub right: Words<P>,
    /// What it costs.
    pub cost: Cost,
}

/// Names of states, and rules over their numbers. The start is state 0. Rules are numbered from 1.
#[derive(Drop)]
pub struct StringTransducer<S> {
    names: Names,
    rules: Vec<StringRule<u32>>,
    semiring: PhantomData<S>,
}

impl<S> Model for StringTransducer<S> {
    ghost use Rattle.tib_strings.specs.StringTransducerOf.{StringTransducerOf, string_transducer_code};

    ghost Value = { StringTransducerOf };

    ghost coded = { string_transducer_code };

    ghost use Rattle.tib_strings.specs.StringTransducerView.{string_transducer_of, IsStringTransducer};

    ghost view = { string_transducer_of };

    ghost invariant = { IsStringTransducer };
}
