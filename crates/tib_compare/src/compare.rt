// What the vectors of two grammars side by side say of their supports.
ghost use Rattle.std.specs.Prelude.{◌≡◌, ◌≤◌, ◌<◌, ◌^◌, length, IfOk, IfErr, max};
ghost use Rattle.tib_grammar.specs.Forms.{AreNormal};
ghost use Rattle.tib_grammar.specs.Range.{AreInRange};
ghost use Rattle.tib_grammar_file.specs.Printed.{AreLabelled};
ghost use Rattle.tib_expand.specs.Reached.{most_parts};
ghost use Rattle.tib_determinize.specs.VectorGrammar.{IsDeterminized};
ghost use Rattle.tib_compare.specs.Beside.{beside};
ghost use Rattle.tib_grammar.specs.Run.{AreFree};
ghost use Rattle.tib_compare.specs.Compared.{IsCompared, IsSmall, IsTooLarge};
ghost use Rattle.tib_compare.specs.Faults.{IsCause, IsFaultOf, IsWithin};
ghost use Rattle.tib_compare.specs.Answered.{IsAnswerOf, IsNamed};

use crate::compared::Compared;
use crate::error::CompareError;
use crate::wanted::{is_some_marked, least_wanted, marks_of};
use std::alloc::{AllocError, Global};
use tib_cost::Boolean;
use tib_determinize::Vector;
use tib_expand::{Found, HuntError};
use tib_grammar::Rule;
use tib_normal::Normal;
use tib_tree::{Labels, Tree};
use tib_weigh::weigh;

// Names the grammar that gives the tree a cost: the first, or else the second.
fn name_of(alloc: Global, left: &Normal<Boolean>, tree: Tree) -> Result<Compared, AllocError>
    ensures { IfOk result (IsNamed left.now.rules tree) }
{
    match weigh::<Boolean>(alloc, left, &tree)? {
        Some(_) => Ok(Compared::First(tree)),
        None => Ok(Compared::Second(tree)),
    }
}

// What the reached set of both side by side gives: same where no vector tells them apart, and else
// the least tree of those that do, unless it is too large.
fn answer(
    alloc: Global,
    left: &Normal<Boolean>,
    found: &Found<Vector, Rule<u32>>,
    labels: &Labels,
) -> Result<Option<Compared>, AllocError>
    requires few { length found.now.rules.items < 2 ^ 31 }
    requires many { length found.now.order.items < 2 ^ 31 }
    requires normal { AreNormal found.now.rules.items }
    requires range { AreInRange (length found.now.order.items) found.now.rules.items }
    requires labelled { AreLabelled (length labels.now) found.now.rules.items }
    ensures { IfOk result (IsAnswerOf labels.now (length left.now.names) left.now.rules
        found.now.order.items found.now.rules.items) }
{
    let second = left.grammar().states();
    let marks = marks_of(alloc, &found.order, second)?;
    if !is_some_marked(&marks) {
        return Ok(Some(Compared::Same));
    }
    match least_wanted(alloc, &found.rules, &marks, labels)? {
        Some(tree) => Ok(Some(name_of(alloc, left, tree)?)),
        None => Ok(None),
    }
}

/// The comparison that the vectors of both side by side give, as a determinization finds them:
/// `Same` exactly where every tree has a cost in both or in neither; else the least tree, in the
/// order of trees, that has a cost in exactly one, and which one. `TreeTooLarge` exactly where that
/// tree has more than 10,000 nodes; `OutOfMemory` if memory is refused or 32-bit numbers run out.
/// Worst case: O(r log r) comparisons of trees for r rules over vectors, and `weigh` of one tree.
/// The order of first trees is from Knuth, 1977.
pub fn compare_vectors(
    alloc: Global,
    left: &Normal<Boolean>,
    right: &Normal<Boolean>,
    labels: &Labels,
    limit: u64,
    found: &Found<Vector, Rule<u32>>,
) -> Result<Compared, CompareError>
    requires left_free { AreFree left.now.rules }
    requires right_free { AreFree right.now.rules }
    requires left_labelled { AreLabelled (length labels.now) left.now.rules }
    requires right_labelled { AreLabelled (length labels.now) right.now.rules }
    requires limit { limit ≤ most_parts }
    requires determinized { IsDeterminized max
        (beside (length left.now.names) left.now.rules right.now.rules)
        found.now.order.items found.now.rules.items }
    requires few { length found.now.order.items ≤ limit }
    requires few_rules { length found.now.rules.items ≤ limit }
    requires within { IsWithin left.now right.now limit }
    ensures compared { IfOk result (IsCompared labels.now left.now.rules right.now.rules) }
    ensures small { IfOk result IsSmall }
    ensures cause { IfErr result (IsCause left.now right.now limit) }
{
    left.grammar().is_sound();
    right.grammar();
    match answer(alloc, left, found, labels) {
        Ok(Some(compared)) => Ok(compared),
        Ok(None) => Err(CompareError::TreeTooLarge),
        Err(_) => Err(CompareError::OutOfMemory),
    }
}

/// The fault of a hunt as one of a comparison.
pub fn fault_of(error: HuntError) -> CompareError
    ensures { IsFaultOf error result }
{
    match error {
        HuntError::TooMany { limit } => CompareError::TooMany { limit },
        HuntError::OutOfMemory => CompareError::OutOfMemory,
    }
}
