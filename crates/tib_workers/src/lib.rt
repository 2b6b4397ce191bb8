//! Workers that perform the items of a task. They draw the items from a counter, which gives each
//! number once, number the keys at which the items end in one table, and hand over rows. Whatever
//! the order of their steps, the rows are those of all items, in order, and each names its item's
//! ends on the shelves. The crate uses `tib_table` and `atomic_table`.
#![tactic(auto)]

mod claim;
mod crew;
mod gather;
mod hand;
mod items;
mod row;
mod task;
mod work;

pub use gather::{Gathered, perform_all};
pub use items::{Items, Seat};
pub use row::Row;
pub use task::{Performed, Task, Unperformed};
