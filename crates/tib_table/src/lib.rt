//! Keys that are numbered in the order of first sight. A table has sixteen shelves, each under a
//! turn lock, and many threads number keys in it at once. A key names its shelf; its number is that
//! shelf and its place there. Whatever the threads do, a number that a thread was given names its
//! key in the closed table, and no key has two numbers.
//!
//! The crate also numbers keys in one order, within a limit of parts, and puts the new ones in
//! ascending order. It uses `tib_turn` and `indexmap`.
#![tactic(auto)]

mod board;
mod fresh;
mod halves;
mod number;
mod numbering;
mod problem;
mod shelf;
mod shelves;
mod table;
mod turns;

pub use fresh::{Lookup, count_keys, find_position, find_shelves, put_fresh, put_fresh_together};
pub use number::Number;
pub use numbering::{number_ends, sort_new};
pub use problem::{Entry, Problem};
pub use shelf::Shelf;
pub use shelves::Shelves;
pub use table::{Seats, Table};
