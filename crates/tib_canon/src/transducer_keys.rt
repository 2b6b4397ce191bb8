// The canonical transducer of a reached set.
ghost use Rattle.std.specs.Prelude.{◌≡◌, ◌<◌, ◌^◌, length, IfOk};
ghost use Rattle.tib_lex.specs.Lists.{Distinct};
ghost use Rattle.tib_transducer.specs.Range.{AreWithin, EndInHoles};
ghost use Rattle.tib_transducer_file.specs.Labelled.{AreLabelled};
ghost use Rattle.tib_transducer_file.specs.Printed.{transducer_text};
ghost use Rattle.tib_canon.specs.TransducerKeys.{AreMovesOver, IsTransducerOverKeys, IsCanonicalTransducer, HasSeriesFrom};
ghost use Rattle.tib_canon.specs.Ordered.{over_numbers};

use crate::renaming::renamed_rules;
use crate::transducer_ordering::{PrintedTransducer, in_order};
use crate::{numbers_of, states_by_keys};
use std::alloc::{AllocError, Global};
use tib_cost::Semiring;
use tib_expand::{Found, TableKey};
use tib_transducer::TransducerRule;
use tib_tree::Labels;

// Makes rules over positions into rules over the keys of an order, with the start first and the
// others in ascending order.
fn over_keys<K: TableKey + Drop>(
    alloc: Global,
    order: Vec<K>,
    rules: Vec<TransducerRule<u32>>,
    start: u32,
) -> Result<Vec<TransducerRule<u32>>, AllocError>
    requires distinct { Distinct order.items }
    requires few { length order.items < 2 ^ 32 }
    requires start { start < length order.items }
    requires within { AreWithin (length order.items) rules.items }
    requires leaves { EndInHoles rules.items }
    ensures { IfOk result (λ v. IsTransducerOverKeys K.cmp order.items rules.items start
        (over_numbers (length order.items) v.items)) }
{
    let states = states_by_keys(alloc, order, start)?;
    let numbers = numbers_of(alloc, &states)?;
    renamed_rules(alloc, rules, &numbers)
}

/// The canonical transducer whose states are the keys of an order, with its text. The start is
/// named `q0`, and the others `q1`, `q2` and so on in ascending order of their keys. Each key is a
/// state, and no rule is left out for being useless. Of rules that agree in their states and sides
/// the cheapest stays. The rules are sorted by their states and then by the bytes of their lines as
/// they are printed. The rules are over positions of the order. Err only if memory is refused; all
/// that was given is then gone. Worst case: the keys are sorted once; each rule is hashed once and
/// printed once; and r rules are sorted by O(r log r) comparisons of their lines.
pub fn to_transducer<S: Semiring, K: TableKey + Drop>(
    alloc: Global,
    found: Found<K, TransducerRule<u32>>,
    start: u32,
    labels: &Labels,
) -> Result<PrintedTransducer<S>, AllocError>
    requires distinct { Distinct found.order.items }
    requires few { length found.order.items < 2 ^ 32 }
    requires few_rules { length found.rules.items < 2 ^ 32 }
    requires start { start < length found.order.items }
    requires moves { AreMovesOver S.SCALE labels.now (length found.order.items) found.rules.items }
    ensures canonical { IfOk result (λ h. IsCanonicalTransducer S.SCALE labels.now K.cmp
        found.order.items found.rules.items start h.transducer) }
    ensures series { IfOk result (λ h. HasSeriesFrom S.product found.rules.items start
        h.transducer.rules) }
    ensures labelled { IfOk result (λ h. AreLabelled (length labels.now) h.transducer.rules) }
    ensures text { IfOk result (λ h. h.text.bytes ≡ transducer_text S.SCALE labels.now
        h.transducer) }
{
    let Found { order, rules, .. } = found;
    let states = order.len() as u32;
    let rules = over_keys(alloc, order, rules, start)?;
    in_order(alloc, states, rules, labels)
}
