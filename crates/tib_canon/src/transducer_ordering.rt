// Canonical names and canonical order.
ghost use Rattle.std.specs.Prelude.{◌≡◌, ◌<◌, ◌^◌, length, IfOk};
ghost use Rattle.tib_lex.specs.Lists.{Each, Ascends};
ghost use Rattle.tib_transducer.specs.Range.{AreWithin, AreShaped};
ghost use Rattle.tib_transducer_file.specs.Labelled.{AreLabelled};
ghost use Rattle.tib_transducer_file.specs.ByName.{IsPrintable};
ghost use Rattle.tib_transducer_file.specs.Printed.{transducer_text};
ghost use Rattle.tib_canon.specs.Canonical.{names_of};
ghost use Rattle.tib_canon.specs.TransducerKeys.{AreMovesOver};
ghost use Rattle.tib_canon.specs.Ordered.{Differ, AreMerged, IsSortedForm, over_numbers, IsTransducerInOrder};

use crate::splitting::lines_in;
use crate::transducer_lines::{lines_of, positions_of};
use crate::transducer_merging::cheapest;
use crate::transducer_taking::rules_at;
use crate::{numbered_names, text_of};
use std::alloc::{AllocError, Global};
use tib_cost::Semiring;
use tib_io::{Failed, GrowingSink};
use tib_transducer::{Transducer, TransducerRule};
use tib_transducer_file::print_transducer;
use tib_tree::Labels;

/// A transducer, and its text as it is printed.
#[derive(Drop)]
pub struct PrintedTransducer<S> {
    /// The transducer.
    pub transducer: Transducer<S>,
    /// Its text.
    pub text: GrowingSink,
}

// The text of a transducer.
fn printed<S: Semiring>(
    alloc: Global,
    transducer: &Transducer<S>,
    labels: &Labels,
) -> Result<GrowingSink, AllocError>
    requires { AreLabelled (length labels.now) transducer.now.rules }
    ensures { IfOk result (λ text. text.bytes ≡ transducer_text S.SCALE labels.now transducer.now) }
{
    let mut sink = GrowingSink::new(alloc);
    match print_transducer(transducer, labels, &mut sink) {
        Ok(()) => Ok(sink),
        Err(Failed) => Err(AllocError),
    }
}

// One of the cheapest of the rules that agree in their states and sides, with canonical names.
fn merged<S: Semiring>(
    alloc: Global,
    states: u32,
    rules: Vec<TransducerRule<u32>>,
) -> Result<Transducer<S>, AllocError>
    requires some { 0 < states }
    requires few { length rules.items < 2 ^ 32 }
    requires within { AreWithin states rules.items }
    requires shaped { AreShaped rules.items }
    ensures names { IfOk result (λ t. t.names ≡ names_of states) }
    ensures merged { IfOk result (λ t. AreMerged rules.items t.rules) }
{
    let names = numbered_names(alloc, states)?;
    let positions = cheapest(alloc, &rules)?;
    let merged = rules_at(alloc, rules, &positions)?;
    match Transducer::new(names, merged) {
        Some(transducer) => Ok(transducer),
        None => unreachable!(),
    }
}

// A transducer with its rules in the order of their lines. No two lines are the same.
fn sorted<S: Semiring>(
    alloc: Global,
    transducer: Transducer<S>,
    labels: &Labels,
) -> Result<PrintedTransducer<S>, AllocError>
    requires printable { Each (IsPrintable S.SCALE labels.now) transducer.rules }
    requires apart { Ascends Differ transducer.rules }
    ensures sorted { IfOk result (λ h. IsSortedForm S.SCALE labels.now transducer h.transducer) }
    ensures text { IfOk result (λ h. h.text.bytes ≡ transducer_text S.SCALE labels.now
        h.transducer) }
{
    transducer.is_sound();
    let _ = labels.len();
    let printed = printed(alloc, &transducer, labels)?;
    let texts = lines_in(alloc, printed.bytes())?;
    let mut lines = lines_of(alloc, transducer.rule_list(), &texts)?;
    lines.sort()?;
    let text = text_of(alloc, transducer.name(0), &lines)?;
    let positions = positions_of(alloc, &lines)?;
    let (names, rules) = transducer.into_parts();
    let sorted = rules_at(alloc, rules, &positions)?;
    match Transducer::new(names, sorted) {
        Some(transducer) => Ok(PrintedTransducer { transducer, text }),
        None => unreachable!(),
    }
}

/// The transducer of rules over this number of states, with the states named by their numbers,
/// equal rules merged at the least cost, and the rules sorted. Err only if memory is refused; the
/// rules are then gone. Worst case: each rule is hashed once and printed once, and r rules are
/// sorted by O(r log r) comparisons of their lines; they are moved.
pub(crate) fn in_order<S: Semiring>(
    alloc: Global,
    states: u32,
    rules: Vec<TransducerRule<u32>>,
    labels: &Labels,
) -> Result<PrintedTransducer<S>, AllocError>
    requires some { 0 < states }
    requires few { length rules.items < 2 ^ 32 }
    requires moves { AreMovesOver S.SCALE labels.now states rules.items }
    ensures in_order { IfOk result (λ h. IsTransducerInOrder S.SCALE labels.now
        (over_numbers states rules.items) h.transducer) }
    ensures text { IfOk result (λ h. h.text.bytes ≡ transducer_text S.SCALE labels.now
        h.transducer) }
{
    let merged = merged::<S>(alloc, states, rules)?;
    sorted(alloc, merged, labels)
}
