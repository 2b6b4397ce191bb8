//! The reached set of an operation, found round by round. The core of a round is a machine over
//! events. Every complete run of it leaves the same keys and the same edges, whatever the order of
//! its events, and each round makes what such a run leaves. One worker finds the reached set, or
//! several do; they find the same set whatever the order of their steps. The crate uses
//! `tib_expand`, which says what is explored, `tib_workers` and `tib_table`.
#![tactic(auto)]

mod dividing;
mod ending;
mod event;
mod hunts;
mod itemized;
mod job;
pub mod laws;
mod listed_round;
mod lookups;
mod one_round;
mod placing;
mod round;
mod round_of;
mod row;
mod shelved_round;
mod shelving;
mod state;
mod terms;
mod worker_round;

pub use event::{Answer, Event};
pub use hunts::{hunt, hunt_alone};
pub use itemized::Itemized;
pub use round::Round;
pub use round_of::RoundOf;
