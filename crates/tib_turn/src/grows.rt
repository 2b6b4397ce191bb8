// Values with a log that only grows.
ghost use Rattle.std.specs.Prelude.{List};

/// A value with a log: a list of entries that its holders only ever make longer.
pub trait Grows {
    /// An entry of the log.
    type Entry;

    ghost log: { Self → List Self.Entry };
}
