//! The pairs of the states of two grammars, as what is hunted.

ghost use Rattle.std.specs.Prelude.{◌≡◌, ℕ, ◌<◌, ◌≤◌, List, length, IfOk, Err};
ghost use Rattle.tib_grammar.specs.Range.{StatesBelow};
ghost use Rattle.tib_expand.specs.Reached.{most_parts};
ghost use Rattle.tib_key_edges.specs.Positions.{IsIndex};
ghost use Rattle.tib_intersect.specs.Matching.{has_shape};
ghost use Rattle.tib_intersect.specs.PairListing.{IsWithinBudget, ListsPair, PairOverruns};

use crate::index::ByLeft;
use crate::listing::PairListing;
use crate::pair_rule::PairRule;
use std::alloc::{AllocError, Global};
use tib_cost::Semiring;
use tib_expand::ExpandError;
use tib_key_edges::{ShapeIndex, StatePair, index_rules};
use tib_normal::Normal;

/// The pairs of a state of the one grammar and a state of the other, reached from the pair of the
/// starts.
#[derive(Drop)]
pub struct Pairs<'a, S> {
    /// The first grammar.
    pub left: &'a Normal<S>,
    /// The second grammar.
    pub right: &'a Normal<S>,
    index: ShapeIndex,
    pub ghost indexed: { IsIndex has_shape right.now.rules index },
    pub ghost left_start: { 0 < length left.now.names },
    pub ghost right_start: { 0 < length right.now.names },
    pub ghost left_range: { StatesBelow (length left.now.names) left.now.rules },
    pub ghost right_range: { StatesBelow (length right.now.names) right.now.rules },
}

impl<'a, S: Semiring> Pairs<'a, S> {
    /// The pairs of two grammars. Err only if memory is refused. Cost: one look-up by hash for each
    /// rule of the second grammar.
    pub fn new(
        alloc: Global,
        left: &'a Normal<S>,
        right: &'a Normal<S>,
    ) -> Result<Pairs<'a, S>, AllocError>
        ensures left { IfOk result (λ p. p.left.now ≡ left.now) }
        ensures right { IfOk result (λ p. p.right.now ≡ right.now) }
    {
        left.grammar().is_sound();
        right.grammar().is_sound();
        let index = index_rules::<ByLeft>(alloc, right.grammar().rule_list())?;
        Ok(Pairs { left, right, index })
    }

    /// The edges of a pair at a position.
    pub(crate) fn list_edges(
        &self,
        alloc: Global,
        pair: StatePair,
        position: u32,
        budget: u64,
    ) -> Result<PairListing, ExpandError>
        requires first { pair.0 < length self.now.left.now.names }
        requires budget { budget ≤ most_parts }
        ensures listed { IfOk result (ListsPair S.product self.now.left.now.rules
            self.now.right.now.rules pair position) }
        ensures more { result ≡ Err ExpandError.More → PairOverruns S.product
            self.now.left.now.rules self.now.right.now.rules pair position budget }
        ensures within { IfOk result IsWithinBudget }
        ensures budget { IfOk result (λ l. l.budget ≡ budget) }
    {
        let mut listing = PairListing::new(alloc, position, budget);
        self.left.grammar().is_sound();
        let others = self.right.grammar().rule_list();
        for one in self.left.rules_of(pair.first()) {
            let (label, rank) = one.root();
            let matches = self.index.find(pair.second(), label, rank);
            match listing.add_matches::<S>(one, others, matches) {
                Ok(()) => {}
                Err(fault) => return Err(fault),
            }
        }
        Ok(listing)
    }
}
