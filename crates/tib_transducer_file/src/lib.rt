//! Weighted top-down tree transducers as text. `read_transducer` takes the bytes of a file and
//! gives the transducer whose text they are, or the first fault of the file. It builds on the lines
//! and tokens of `tib_lex`, the labels of `tib_tree`, the weights of `tib_grammar_file` and the
//! transducers of `tib_transducer`. `read_file` also reads files whose rules have other right sides
//! (`tib_strings`): an `impl` of `RightReader` says what these are and how to read them.
//! `print_transducer` writes the text of a transducer into a sink of `tib_io`: exactly
//! `transducer_text` of `specs`, or a prefix of it where the sink fails. Labels are put in quotes
//! where they would read as something else.
#![tactic(auto)]

mod file;
mod forms;
mod label;
mod laws;
mod leaf;
mod parts;
mod pieces;
mod print;
mod printed_laws;
mod right;
mod rules;
mod sides;
mod start;
mod transducer;
mod trees;

pub use file::{FileRules, read_file};
pub use label::put_label;
pub use laws::{
    one_transducer_by_text, text_has_one_transducer, transducer_faults_are_one,
    transducer_faults_are_read, transducer_files_are_texts_or_faulty,
};
pub use print::print_transducer;
pub use printed_laws::{
    ordered_transducers_are_read, printed_rules_are_read, printed_transducers_are_read,
    read_transducers_are_printed_back,
};
pub use right::RightReader;
pub use sides::right_item;
pub use transducer::read_transducer;
