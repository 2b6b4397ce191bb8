//! A lock that hands one value to one holder at a time, in the order of tickets, where the value
//! has a log that only grows. Each holder's pass knows a list that it has seen, and whatever the
//! threads do, that list is a prefix of the log of the value that the pass is handed next. It is
//! built on `atomic_table`: one word for the next ticket, one for the ticket served, and a slot for
//! the value.
#![tactic(auto)]

mod grows;
mod lock;
mod rule;
mod ticket;
mod view;

pub use grows::Grows;
pub use lock::{Pass, Turn, TurnLock};
