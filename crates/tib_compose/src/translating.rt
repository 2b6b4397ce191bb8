//! All translations of a right-hand side of the first transducer, one after another.

ghost use Rattle.std.specs.Prelude.{◌≡◌, ◌<◌, length, IfOk, OnOk, Err};
ghost use Rattle.tib_compose.specs.CompositionListing.{IsWithinBudget};
ghost use Rattle.tib_compose.specs.Pending.{AreNodesBelow};
ghost use Rattle.tib_compose.specs.Searches.{AreTurnsAt};
ghost use Rattle.tib_compose.specs.Sources.{IsSource};
ghost use Rattle.tib_compose.specs.Walk.{GoesOn, GoesTooFar, HasBegun, HasCome, IsRead, Steps, StepsTooFar};

use crate::branch::Branch;
use crate::composite::Composite;
use crate::listing::CompositionListing;
use crate::pending::product_of;
use crate::putting::push_pieces;
use crate::search::{ReturnPoint, Search};
use crate::source::Source;
use std::alloc::{AllocError, Global};
use tib_cost::Semiring;
use tib_expand::ExpandError;
use tib_grammar::Side;
use tib_transducer::Variable;

/// Goes on with the branch of a search up to the next label that is read, and turns there; where
/// none is left, lists the edge that reads the left-hand side and puts out what the branch put out.
/// `More` exactly where the budget has no room for it.
pub(crate) fn go_on<'a>(
    alloc: Global,
    source: &Source,
    left: &'a Side<Variable>,
    search: &mut Search,
    listing: &mut CompositionListing<'a>,
) -> Result<(), ExpandError>
    requires within { IsWithinBudget listing.old }
    requires turns { AreTurnsAt source.now.items.now search.old.turns.items }
    requires nodes { AreNodesBelow (length source.now.items.now)
        search.old.branch.pending.tasks.items }
    requires come { HasCome source.now left.now search.old listing.old }
    ensures goes { OnOk result (GoesOn source.now left.now search.old search.new listing.old
        listing.new) }
    ensures more { result ≡ Err ExpandError.More → GoesTooFar source.now left.now search.old
        listing.old }
    ensures within { OnOk result (IsWithinBudget listing.new) }
    ensures budget { OnOk result (listing.new.budget ≡ listing.old.budget) }
    ensures turns { OnOk result (AreTurnsAt source.now.items.now search.new.turns.items) }
    ensures nodes { OnOk result (AreNodesBelow (length source.now.items.now)
        search.new.branch.pending.tasks.items) }
{
    let Ok(reading) = search.branch.advance(source.items) else {
        return Err(ExpandError::OutOfMemory);
    };
    search.branch.cost.get();
    match reading {
        Some(reading) => match search.meet(reading) {
            Ok(()) => Ok(()),
            Err(_) => Err(ExpandError::OutOfMemory),
        },
        None => match listing.add(alloc, left, &search.branch.done, search.branch.cost) {
            Ok(()) => Ok(()),
            Err(fault) => Err(fault),
        },
    }
}

impl<'a, S: Semiring> Composite<'a, S> {
    /// Reads the label of a turn by the rule of the second transducer at a position, and returns
    /// whether a translation within the greatest cost can come of it.
    fn read(
        &self,
        source: &Source,
        branch: &mut Branch,
        turn: &ReturnPoint,
        position: u32,
    ) -> Result<bool, AllocError>
        requires below { position < length self.now.second.now.rules }
        requires node { turn.now.reading.node < length source.now.ends.items }
        ensures read { IfOk result (IsRead S.product self.now.second.now.rules source.now turn.now
            position branch.old branch.new) }
    {
        let rule = &self.second.rule_list()[position as usize];
        let Some(cost) = S::times(turn.cost, rule.cost) else {
            return Ok(false);
        };
        branch.cost = cost;
        push_pieces::<S>(
            &mut branch.pending,
            rule.right.items(),
            source,
            turn.reading.node,
        )?;
        Ok(product_of::<S>(Some(cost), branch.pending.bound()).is_some())
    }

    /// Takes the next rule at the last turn of a search; returns whether there is a turn.
    pub(crate) fn step(
        &self,
        alloc: Global,
        source: &Source,
        left: &'a Side<Variable>,
        search: &mut Search,
        listing: &mut CompositionListing<'a>,
    ) -> Result<bool, ExpandError>
        requires within { IsWithinBudget listing.old }
        requires source { IsSource S.product self.now.second.now.rules source.now }
        requires turns { AreTurnsAt source.now.items.now search.old.turns.items }
        requires nodes { AreNodesBelow (length source.now.items.now)
            search.old.branch.pending.tasks.items }
        requires begun { HasBegun S.product self.now.second.now.rules source.now left.now search.old
            listing.old }
        ensures steps { IfOk result (Steps S.product self.now.second.now.rules source.now left.now
            search.old search.new listing.old listing.new) }
        ensures more { result ≡ Err ExpandError.More → StepsTooFar S.product
            self.now.second.now.rules source.now left.now search.old listing.old }
        ensures within { OnOk result (IsWithinBudget listing.new) }
        ensures budget { OnOk result (listing.new.budget ≡ listing.old.budget) }
        ensures turns { OnOk result (AreTurnsAt source.now.items.now search.new.turns.items) }
        ensures nodes { OnOk result (AreNodesBelow (length source.now.items.now)
            search.new.branch.pending.tasks.items) }
    {
        self.second.is_sound();
        let Some(turn) = search.turns.pop() else {
            return Ok(false);
        };
        let readers = self
            .index
            .find(turn.reading.state, turn.reading.label, turn.reading.rank);
        let Some(position) = readers.get(turn.tried) else {
            return Ok(true);
        };
        search.back_to(&turn);
        let Ok(alive) = self.read(source, &mut search.branch, &turn, *position) else {
            return Err(ExpandError::OutOfMemory);
        };
        let Ok(()) = search.again(turn) else {
            return Err(ExpandError::OutOfMemory);
        };
        if !alive {
            return Ok(true);
        }
        match go_on(alloc, source, left, search, listing) {
            Ok(()) => Ok(true),
            Err(fault) => Err(fault),
        }
    }
}
