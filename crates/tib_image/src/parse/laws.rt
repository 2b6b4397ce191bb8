//! What holds of parsing, in every semiring.
ghost use Rattle.tib_image.specs.Parsing.{ParseMeans};
ghost use Rattle.tib_image.specs.ParseOperation.{ParseIsReached, ReachedParses, OneParseSet, KeysAreWithin, EndsAreKeys};
ghost use Rattle.tib_image.specs.ParseEdges.{EdgesAreListed};

use tib_cost::Semiring;

/// The grammar of the keys that parsing reaches has the series of the transducer at the string.
pub fn parse_means<S: Semiring>()
    ensures { ParseMeans S.product }
{}

/// The reached set of parsing is that grammar.
pub fn parse_is_reached()
    ensures { ParseIsReached }
{}

/// The reached set of parsing has the series of the transducer at the string.
pub fn reached_parses<S: Semiring>()
    ensures { ReachedParses S.product }
{}

/// Parsing has one reached set: the same keys in the same order, and the same edges.
pub fn one_parse_set()
    ensures { OneParseSet }
{}

/// The edges of a key are those of its rules and of their cuts, in this order.
pub fn edges_are_listed()
    ensures { EdgesAreListed }
{}

/// The keys that parsing reaches are of states in range, over places of the string in order.
pub fn keys_are_within()
    ensures { KeysAreWithin }
{}

/// The ends of an edge of a key in range are keys in range.
pub fn ends_are_keys()
    ensures { EndsAreKeys }
{}
