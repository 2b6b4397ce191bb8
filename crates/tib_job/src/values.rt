// What files hold: each kind of value with its reader.
use crate::files::FileValue;
use std::alloc::Global;
use tib_cost::{Boolean, Semiring};
use tib_grammar::Grammar;
use tib_grammar_file::{read_grammar, read_grammars_are_printable};
use tib_lex::ReadError;
use tib_strings::{StringTransducer, read_string, read_string_transducer};
use tib_transducer::Transducer;
use tib_transducer_file::read_transducer;
use tib_tree::{Label, Labels, Tree, read_one_tree, read_trees};

/// A grammar of which only its trees count, read in Boolean whatever the mode of the job.
#[derive(Drop)]
pub struct Support {
    /// The grammar.
    pub grammar: Grammar<Boolean>,
}

impl<S: Semiring> FileValue for Grammar<S> {
    ghost use Rattle.std.specs.Prelude.{◌≡◌};
    ghost use Rattle.tib_job.specs.Kinds.{of_grammar};

    ghost kind = { of_grammar };

    ghost value = { λ g. g };

    ghost suits = { λ scale. S.SCALE ≡ scale };

    fn read(alloc: Global, bytes: &[u8], labels: &mut Labels) -> Result<Self, ReadError> {
        read_grammars_are_printable();
        read_grammar::<S>(alloc, bytes, labels)
    }
}

impl FileValue for Support {
    ghost use Rattle.tib_job.specs.Kinds.{of_support};

    ghost kind = { of_support };

    ghost value = { λ s. s.grammar };

    ghost suits = { λ scale. Unit {0} };

    fn read(alloc: Global, bytes: &[u8], labels: &mut Labels) -> Result<Self, ReadError> {
        read_grammars_are_printable();
        match read_grammar::<Boolean>(alloc, bytes, labels) {
            Ok(grammar) => Ok(Support { grammar }),
            Err(error) => Err(error),
        }
    }
}

impl FileValue for Vec<Tree> {
    ghost use Rattle.tib_job.specs.Kinds.{of_trees};

    ghost kind = { of_trees };

    ghost value = { λ trees. trees.items };

    ghost suits = { λ scale. Unit {0} };

    fn read(alloc: Global, bytes: &[u8], labels: &mut Labels) -> Result<Self, ReadError> {
        read_trees(alloc, bytes, labels)
    }
}

impl FileValue for Tree {
    ghost use Rattle.tib_job.specs.Kinds.{of_one_tree};

    ghost kind = { of_one_tree };

    ghost value = { λ tree. tree };

    ghost suits = { λ scale. Unit {0} };

    fn read(alloc: Global, bytes: &[u8], labels: &mut Labels) -> Result<Self, ReadError> {
        read_one_tree(alloc, bytes, labels)
    }
}

impl<S: Semiring> FileValue for Transducer<S> {
    ghost use Rattle.std.specs.Prelude.{◌≡◌};
    ghost use Rattle.tib_job.specs.Kinds.{of_transducer};

    ghost kind = { of_transducer };

    ghost value = { λ t. t };

    ghost suits = { λ scale. S.SCALE ≡ scale };

    fn read(alloc: Global, bytes: &[u8], labels: &mut Labels) -> Result<Self, ReadError> {
        read_transducer::<S>(alloc, bytes, labels)
    }
}

impl<S: Semiring> FileValue for StringTransducer<S> {
    ghost use Rattle.std.specs.Prelude.{◌≡◌};
    ghost use Rattle.tib_job.specs.Kinds.{of_string_transducer};

    ghost kind = { of_string_transducer };

    ghost value = { λ t. t };

    ghost suits = { λ scale. S.SCALE ≡ scale };

    fn read(alloc: Global, bytes: &[u8], labels: &mut Labels) -> Result<Self, ReadError> {
        read_string_transducer::<S>(alloc, bytes, labels)
    }
}

// The words of a string.
impl FileValue for Vec<Label> {
    ghost use Rattle.tib_job.specs.Kinds.{of_string};

    ghost kind = { of_string };

    ghost value = { λ string. string.items };

    ghost suits = { λ scale. Unit {0} };

    fn read(alloc: Global, bytes: &[u8], labels: &mut Labels) -> Result<Self, ReadError> {
        read_string(alloc, bytes, labels)
    }
}
