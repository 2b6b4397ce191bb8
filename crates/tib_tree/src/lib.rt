//! Trees over numbered labels, their text and their order. It reads files of one tree a line, and
//! files of exactly one tree, into trees, kept as nodes in preorder, over a table of distinct label
//! texts; it prints trees, and compares them by the texts of their labels. A file that is read is
//! the text of just these trees, or the fault is its first; what is printed reads back. It depends
//! on `tib_lex` for lines and tokens and on `tib_io` for sinks.
#![tactic(auto)]

mod comparing;
mod file;
mod labels;
mod laws;
mod one_tree;
mod one_tree_laws;
mod order_laws;
mod preorder;
mod print;
mod recent;
mod shape;
mod text_set;
mod trees;
mod trees_read;

pub use comparing::compare;
pub use file::read_trees;
pub use labels::Labels;
pub use laws::{nodes_are_read, printed_trees_are_read, texts_are_read, texts_mean_one};
pub use one_tree::read_one_tree;
pub use one_tree_laws::one_tree_or_fault;
pub use order_laws::trees_are_ordered;
pub use preorder::{Label, Node, ShapeError, Tree};
pub use print::{needs_quotes, print_label, print_tree};
pub use shape::{Place, Reader};
pub use trees::{LineReader, MOST_NODES, intern_token, trees_have_a_limit};
