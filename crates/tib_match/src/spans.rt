//! Spans of states.

/// The states from one on and below another.
#[derive(Clone, Copy, Drop)]
pub(crate) struct Span {
    /// The first one.
    pub low: u32,
    /// The one after the last.
    pub high: u32,
}
