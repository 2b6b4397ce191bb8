//! The pairs of states as an operation: its seed, its edges, and the rules that stand for these.

ghost use Rattle.std.specs.Prelude.{◌≡◌, ℕ, ◌<◌, ◌^◌, length, map};
ghost use Rattle.tib_lex.specs.Lists.{Each};
ghost use Rattle.tib_expand.specs.EdgeLists.{IsWithin, position_of};
ghost use Rattle.tib_key_edges.specs.Ends.{ends_from};
ghost use Rattle.tib_intersect.specs.PairRules.{places_of};

use crate::pair_rule::PairRule;
use crate::pairs::Pairs;
use std::alloc::{AllocError, Global};
use tib_cost::Semiring;
use tib_expand::{Edges, Expand, ExpandError};
use tib_grammar::{Rule, Side};
use tib_key_edges::StatePair;

/// The positions of the ends of a rule.
fn states_at<'e>(rule: &PairRule, ends: &'e [u32]) -> &'e [u32]
    requires { (known : ℕ) × Each (IsWithin known (length ends.now)) (places_of rule.now) }
    ensures are { result.now ≡ map (position_of ends.now)
        (ends_from rule.now.first_end rule.now.rank) }
    ensures few { length result.now < 2 ^ 32 }
{
    let PairRule {
        first_end,
        rank,
        ..
    } = *rule;
    if rank == 0 {
        return &[];
    }
    &ends[first_end as usize..first_end as usize + rank as usize]
}

impl<'a, S: Semiring> Expand for Pairs<'a, S> {
    ghost use Rattle.std.specs.Prelude.{◌<◌, length};
    ghost use Rattle.tib_intersect.specs.Intersection.{intersection};
    ghost use Rattle.tib_intersect.specs.PairLaws.{pairs_are_lawful};
    ghost use Rattle.tib_intersect.specs.PairRules.{pair_reading};

    type Key = StatePair;

    type Over = PairRule;

    type Rule = Rule<u32>;

    type Index = ();

    type Origin = (u32, u32);

    type Edge = Rule<StatePair>;

    ghost hunted = { λ p. intersection S.product p.left.now.rules p.right.now.rules };

    ghost admits = { λ p k. (k.0 < length p.left.now.names) × (k.1 < length p.right.now.names) };

    ghost indexes = { λ _ _ _. Unit {0} };

    ghost reading = { pair_reading };

    fn seeds(&self, alloc: Global, budget: u64) -> Result<Edges<StatePair, PairRule>, ExpandError> {
        let _budget = budget;
        let Ok(ends) = Vec::from_array(alloc, [StatePair::new(0, 0)]) else {
            return Err(ExpandError::OutOfMemory);
        };
        Ok(Edges {
            ends,
            rules: Vec::new(alloc),
            parts: 0,
        })
    }

    fn begin_index(&self, _alloc: Global) -> Result<(), AllocError> {
        Ok(())
    }

    fn extend_index(
        &self,
        _alloc: Global,
        _index: &mut (),
        _order: &[StatePair],
        _from: u32,
    ) -> Result<(), AllocError> {
        Ok(())
    }

    fn expand(
        &self,
        alloc: Global,
        order: &[StatePair],
        _index: &(),
        n: u32,
        budget: u64,
    ) -> Result<Edges<StatePair, PairRule>, ExpandError> {
        match self.list_edges(alloc, order[n as usize], n, budget) {
            Ok(listing) => Ok(listing.into_edges()),
            Err(fault) => Err(fault),
        }
    }

    fn settle(
        &self,
        alloc: Global,
        rule: &PairRule,
        ends: &[u32],
    ) -> Result<Rule<u32>, AllocError> {
        let right = Side::over(alloc, rule.label, states_at(rule, ends))?;
        Ok(Rule {
            left: rule.position,
            right,
            cost: rule.cost,
        })
    }

    ghost lawful = { λ p. pairs_are_lawful S.product p.left.now.rules p.right.now.rules
        (length p.left.now.names) (length p.right.now.names)
        p.left_start p.right_start p.left_range p.right_range };
}
