// What one pass has seen of a lock.
use std::collections::LinkedList;

/// The stage of a pass: out of a turn, waiting for its ticket, or in the turn of its ticket.
pub enum Stage {
    Idle,
    Waiting(u64),
    Inside(u64),
}

/// What a pass knows: the list that it has seen, and the list of a pass that it took in. No value
/// of this type is made.
pub struct View<E> {
    pub seen: LinkedList<E>,
    pub told: LinkedList<E>,
    pub stage: Stage,
}
