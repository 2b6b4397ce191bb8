//! What a round of a hunt is given.

use tib_expand::{Expand, Gate};

/// The terms of a round: the operation, an index of the order so far, the limit of parts, and the
/// gate that is called before an item is expanded.
#[derive(Drop)]
pub(crate) struct Terms<'a, E: Expand, G: Gate> {
    pub problem: &'a E,
    pub index: &'a E::Index,
    pub limit: u64,
    pub gate: &'a G,
}
