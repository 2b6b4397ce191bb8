// Canonical names and canonical order.
ghost use Rattle.std.specs.Prelude.{◌≡◌, ◌<◌, ◌^◌, length, IfOk};
ghost use Rattle.tib_grammar.specs.Range.{AreInRange, SidesEndInHoles};
ghost use Rattle.tib_grammar_file.specs.Printed.{AreLabelled, grammar_text};
ghost use Rattle.tib_canon.specs.Canonical.{OverStates, IsInOrder};

use crate::lines::{lines_at, texts_at};
use crate::merging::cheapest;
use crate::names::numbered_names;
use crate::taking::rules_at;
use crate::texts::text_of;
use std::alloc::{AllocError, Global};
use tib_cost::Semiring;
use tib_grammar::{Grammar, Rule};
use tib_io::GrowingSink;
use tib_tree::Labels;

/// A grammar, and its text as it is printed.
#[derive(Drop)]
pub struct Printed<S> {
    /// The grammar.
    pub grammar: Grammar<S>,
    /// Its text.
    pub text: GrowingSink,
}

/// The grammar of rules over this number of states, with the states named by their numbers, equal
/// rules merged at the least cost, and the rules sorted. The rules are moved, and the lines by
/// which they are sorted are the text. Err only if memory is refused; the rules are then gone.
pub(crate) fn in_order<S: Semiring>(
    alloc: Global,
    states: u32,
    rules: Vec<Rule<u32>>,
    labels: &Labels,
) -> Result<Printed<S>, AllocError>
    requires some { 0 < states }
    requires few { length rules.items < 2 ^ 32 }
    requires range { AreInRange states rules.items }
    requires leaves { SidesEndInHoles rules.items }
    requires labelled { AreLabelled (length labels.now) rules.items }
    ensures in_order { IfOk result (λ h. OverStates states rules.items
        (λ g. IsInOrder S.SCALE labels.now g h.grammar)) }
    ensures text { IfOk result (λ h. h.text.bytes ≡ grammar_text S.SCALE labels.now h.grammar) }
{
    let _ = labels.len();
    let names = numbered_names(alloc, states)?;
    names.is_sound();
    let positions = cheapest(alloc, &rules)?;
    let texts = texts_at::<S>(alloc, &rules, &positions, &names, labels)?;
    let mut lines = lines_at(alloc, &rules, &positions, &texts)?;
    lines.sort()?;
    let sorted = rules_at(alloc, rules, &lines)?;
    let text = text_of(alloc, names.text(0), &lines)?;
    match Grammar::new(names, sorted) {
        Some(grammar) => Ok(Printed { grammar, text }),
        None => unreachable!(),
    }
}
