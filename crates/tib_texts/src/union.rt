// `union`: the canonical form of the normal form of two grammars' sum.
ghost use Rattle.std.specs.Prelude.{IfErr, IfOk};
ghost use Rattle.tib_grammar_file.specs.Printable.{ArePrintable};
ghost use Rattle.tib_operations.specs.Made.{IsLimit, IsMadeFault};
ghost use Rattle.tib_operations.specs.Union.{HasUnionText, IsUnionText, union_makes};

use crate::normal::canonical_normal;
use std::alloc::Global;
use tib_canon::Printed;
use tib_cost::Semiring;
use tib_grammar::Grammar;
use tib_operations::Status;
use tib_tree::Labels;
use tib_union::sum_of;

/// The canonical form of the normal form of the sum of two grammars, which gives each tree the
/// lesser of its two costs. `TooMany` only where that normal form has more parts than the limit,
/// otherwise `OutOfMemory`; both grammars are gone. The time is that of the normal form, and of
/// sorting its rules.
pub fn union_of<S: Semiring + Drop>(
    alloc: Global,
    first: Grammar<S>,
    second: Grammar<S>,
    labels: &Labels,
    limit: u64,
) -> Result<Printed<S>, Status>
    requires first { ArePrintable S.SCALE labels.now first.rules }
    requires second { ArePrintable S.SCALE labels.now second.rules }
    requires limit { IsLimit limit }
    ensures text { IfOk result (λ h. HasUnionText S.SCALE S.product limit labels.now first second
        h.text.bytes) }
    ensures grammar { IfOk result (λ h. IsUnionText S.SCALE S.product limit labels.now first second
        h.text.bytes h.grammar) }
    ensures within { IfOk result (λ _. (union_makes S.product limit first second).within) }
    ensures err { IfErr result (IsMadeFault (union_makes S.product limit first second).more limit) }
{
    let sum = match sum_of::<S>(alloc, first, second) {
        Ok(sum) => sum,
        Err(_) => return Err(Status::OutOfMemory),
    };
    canonical_normal::<S>(alloc, &sum, labels, limit)
}
