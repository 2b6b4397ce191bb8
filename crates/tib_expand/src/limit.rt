// The limit on the parts of a reached set.
ghost use Rattle.std.specs.Prelude.{◌≡◌};
ghost use Rattle.tib_lex.specs.Limits.{most_parts};

/// The greatest limit of parts.
pub const MOST_PARTS: u64 = 20_000_000;

/// Law: this constant is the limit that clauses cite.
pub fn hunts_have_a_limit()
    ensures { MOST_PARTS ≡ most_parts }
{}
