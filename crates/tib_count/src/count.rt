//! How many members a set has.

/// How many members a set has.
#[derive(Clone, Copy, Debug, Drop, PartialEq, Eq)]
pub enum Count {
    /// This many, at most the greatest cost.
    Number(u64),
    /// More than the greatest cost.
    Many,
    /// No list has them all.
    Endless,
}
