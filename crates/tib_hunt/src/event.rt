//! The events of a round, and what each returns.

use tib_table::Number;

/// An event of a round: one atomic action of a worker. Not all ends of an item need be numbered:
/// several workers number those that the order lacks.
#[derive(Debug, Drop)]
pub enum Event<K> {
    /// The next item is drawn.
    Draw,
    /// A key is numbered.
    Number { key: K },
    /// The edges of an item are filed.
    File { item: u32 },
}

/// What an event returns.
#[derive(Clone, Copy, Debug, Drop, PartialEq, Eq)]
pub enum Answer {
    /// The item, or None if all are drawn.
    Drawn(Option<u32>),
    /// The number of the key.
    Numbered(Number),
    /// The edges were filed.
    Filed,
}
