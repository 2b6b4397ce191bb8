//! What a hunt returns, and the gate that it calls for each item.

/// The reached set of an operation.
#[derive(Drop)]
pub struct Found<K, R> {
    /// The keys, ordered by rounds and ascending in each round.
    pub order: Vec<K>,
    /// The rules over positions of the order: those of the seeds, and then those of each position.
    pub rules: Vec<R>,
    /// The parts of the keys and of the rules, added up.
    pub parts: u64,
}

/// A gate is called once for each item, before the item is expanded.
pub trait Gate {
    /// Called when the worker of this number is about to expand the item.
    fn pass(&self, worker: u32, item: u32);
}

/// A gate that does nothing.
pub struct Open;

impl Gate for Open {
    fn pass(&self, _worker: u32, _item: u32) {}
}
