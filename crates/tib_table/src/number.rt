// A key's number: its shelf and its place there.
ghost use Rattle.std.specs.Prelude.{◌<◌};

/// The number of a key: its shelf, and its place there.
#[derive(Clone, Copy, Debug, Drop, PartialEq, Eq)]
pub struct Number {
    /// The shelf, below 16.
    pub shelf: u32,
    /// The place on the shelf, from 0.
    pub place: u64,
    pub ghost low: { shelf < 16 },
}
