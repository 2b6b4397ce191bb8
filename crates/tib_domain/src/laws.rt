//! What holds of the domain of a transducer, in every semiring.
ghost use Rattle.tib_domain.specs.Domain.{DomainIsRead, DomainIsParsed, DomainIsLeast, NondeletingReadsAlphabet};

use tib_cost::Semiring;

/// At the empty string the transducer of the domain gives each tree over the alphabet the least
/// cost of a run that reads it, and every other tree none.
pub fn domain_is_read<S: Semiring>()
    ensures { DomainIsRead S.product }
{}

/// So does, where the transducer is linear, the grammar of the keys that parsing reaches.
pub fn domain_is_parsed<S: Semiring>()
    ensures { DomainIsParsed S.product }
{}

/// That cost is the least of the costs of the tree and an output, over all outputs.
pub fn domain_is_least<S: Semiring>()
    ensures { DomainIsLeast S.product }
{}

/// A nondeleting transducer reads trees over the alphabet alone.
pub fn nondeleting_reads_alphabet<S: Semiring>()
    ensures { NondeletingReadsAlphabet S.product }
{}
