// `normal`: the canonical form of a grammar's normal form.
ghost use Rattle.std.specs.Prelude.{IfErr, IfOk};
ghost use Rattle.tib_grammar_file.specs.Printable.{ArePrintable};
ghost use Rattle.tib_operations.specs.Made.{IsLimit, IsMadeFault};
ghost use Rattle.tib_operations.specs.Normal.{HasNormalText, IsNormalText, normal_makes};

use crate::forms::normal_of;
use std::alloc::Global;
use tib_canon::{Printed, canonical, normal_forms_are_printable, normal_texts_are_read};
use tib_cost::Semiring;
use tib_grammar::Grammar;
use tib_grammar_file::printable_is_labelled;
use tib_operations::Status;
use tib_tree::Labels;

/// The canonical form of the grammar's normal form. `TooMany` only where that has more parts than
/// the limit, otherwise `OutOfMemory`. The time is that of the normal form, and of sorting its
/// rules.
pub fn canonical_normal<S: Semiring + Drop>(
    alloc: Global,
    grammar: &Grammar<S>,
    labels: &Labels,
    limit: u64,
) -> Result<Printed<S>, Status>
    requires printable { ArePrintable S.SCALE labels.now grammar.now.rules }
    requires limit { IsLimit limit }
    ensures text { IfOk result (λ h. HasNormalText S.SCALE S.product limit labels.now grammar.now
        h.text.bytes) }
    ensures grammar { IfOk result (λ h. IsNormalText S.SCALE S.product limit labels.now grammar.now
        h.text.bytes h.grammar) }
    ensures within { IfOk result (λ _. (normal_makes S.product limit grammar.now).within) }
    ensures err { IfErr result (IsMadeFault (normal_makes S.product limit grammar.now).more limit) }
{
    grammar.is_sound();
    let normal = match normal_of::<S>(alloc, grammar, limit) {
        Ok(normal) => normal,
        Err(status) => return Err(status),
    };
    let form = normal.into_grammar();
    form.is_sound();
    normal_forms_are_printable::<S>();
    printable_is_labelled();
    normal_texts_are_read::<S>();
    match canonical::<S>(alloc, form, labels) {
        Ok(canonical) => Ok(canonical),
        Err(_) => Err(Status::OutOfMemory),
    }
}
