//! The edges of a pair of states, listed one after another.

ghost use Rattle.std.specs.Prelude.{◌≡◌, ℕ, ◌<◌, ◌≤◌, ◌⊎◌, ◌++◌, List, length, map, zip, OnOk, Err};
ghost use Rattle.tib_lex.specs.Lists.{Has, Each, Distinct};
ghost use Rattle.tib_grammar.specs.Forms.{AreNormal, IsNormalSide};
ghost use Rattle.tib_grammar.specs.Run.{rule_at};
ghost use Rattle.tib_grammar.specs.declared.Rule.{Rule};
ghost use Rattle.tib_intersect.specs.PairListing.{states_of, pairs_of, Agree, IsNext, IsTooMuch, IsWithinBudget, ListsMatches, MatchesOverrun};
ghost use Rattle.tib_grammar.specs.Items.{state_in};

use crate::pair_rule::PairRule;
use std::alloc::{AllocError, Global};
use tib_cost::Semiring;
use tib_expand::{Edges, ExpandError};
use tib_grammar::{Item, Rule};
use tib_key_edges::StatePair;

/// Appends the pairs of the states of the items to the ends.
fn push_pairs(
    ends: &mut Vec<StatePair>,
    one: &[Item<u32>],
    two: &[Item<u32>],
) -> Result<(), AllocError>
    requires { length one.now ≡ length two.now }
    ensures { OnOk result (ends.new.items ≡ ends.old.items ++ zip (map state_in one.now)
        (map state_in two.now)) }
{
    for i in 0..one.len() {
        let (first, second) = (&one[i], &two[i]);
        ends.push(StatePair::new(first.state(), second.state()))?;
    }
    Ok(())
}

/// The edges of the pair at a position, as far as they are listed, within a budget of parts.
#[derive(Drop)]
pub struct PairListing {
    ends: Vec<StatePair>,
    rules: Vec<PairRule>,
    parts: u64,
    position: u32,
    budget: u64,
}

impl PairListing {
    /// The empty list of edges of the pair at a position.
    pub fn new(alloc: Global, position: u32, budget: u64) -> PairListing
        ensures position { result.position ≡ position }
        ensures budget { result.budget ≡ budget }
        ensures ends { length result.ends.items ≡ 0 }
        ensures rules { length result.rules.items ≡ 0 }
        ensures parts { result.parts ≡ 0 }
    {
        PairListing {
            ends: Vec::new(alloc),
            rules: Vec::new(alloc),
            parts: 0,
            position,
            budget,
        }
    }

    /// Lists the edge of two rules, unless its cost is too great. `More` comes exactly where it has
    /// more parts than the budget leaves.
    fn add_edge<S: Semiring>(&mut self, one: &Rule<u32>, two: &Rule<u32>) -> Result<(), ExpandError>
        requires one { IsNormalSide one.now.right }
        requires two { IsNormalSide two.now.right }
        requires agree { Agree one.now two.now }
        requires within { IsWithinBudget self.old }
        ensures next { OnOk result (IsNext S.product one.now two.now self.old self.new) }
        ensures more { result ≡ Err ExpandError.More → IsTooMuch S.product one.now two.now
            self.old }
        ensures within { OnOk result (IsWithinBudget self.new) }
        ensures position { self.new.position ≡ self.old.position }
        ensures budget { self.new.budget ≡ self.old.budget }
    {
        let Some(cost) = S::times(one.cost, two.cost) else {
            return Ok(());
        };
        let (label, rank) = one.root();
        let parts = self.parts + 2 + rank as u64;
        if parts > self.budget {
            return Err(ExpandError::More);
        }
        let first_end = self.ends.len() as u32;
        match push_pairs(&mut self.ends, one.states_below(), two.states_below()) {
            Ok(()) => {}
            Err(_) => return Err(ExpandError::OutOfMemory),
        }
        let rule = PairRule {
            position: self.position,
            label,
            first_end,
            rank,
            cost,
        };
        match self.rules.push(rule) {
            Ok(()) => {}
            Err(_) => return Err(ExpandError::OutOfMemory),
        }
        self.parts = parts;
        Ok(())
    }

    /// Lists the edges of a rule and those at these positions among the others. `More` only where
    /// they have more parts than the budget leaves, otherwise `OutOfMemory`; some edges may then be
    /// listed. Cost: one step for each state in these rules.
    pub fn add_matches<S: Semiring>(
        &mut self,
        one: &Rule<u32>,
        others: &[Rule<u32>],
        positions: &[u32],
    ) -> Result<(), ExpandError>
        requires one { IsNormalSide one.now.right }
        requires others { AreNormal others.now }
        requires positions { Each (λ j. (j < length others.now)
            × Agree one.now (rule_at others.now j)) positions.now }
        requires distinct { Distinct positions.now }
        requires within { IsWithinBudget self.old }
        ensures listed { OnOk result (ListsMatches S.product others.now one.now positions.now
            self.old self.new) }
        ensures more { result ≡ Err ExpandError.More → MatchesOverrun S.product others.now one.now
            positions.now self.old }
        ensures within { OnOk result (IsWithinBudget self.new) }
        ensures position { self.new.position ≡ self.old.position }
        ensures budget { self.new.budget ≡ self.old.budget }
    {
        for position in positions {
            match self.add_edge::<S>(one, &others[*position as usize]) {
                Ok(()) => {}
                Err(fault) => return Err(fault),
            }
        }
        Ok(())
    }

    /// The ends, the rules and their parts.
    pub fn into_edges(self) -> Edges<StatePair, PairRule>
        ensures ends { result.ends.items ≡ self.ends.items }
        ensures rules { result.rules.items ≡ self.rules.items }
        ensures parts { result.parts ≡ self.parts }
    {
        let PairListing {
            ends,
            rules,
            parts,
            ..
        } = self;
        Edges { ends, rules, parts }
    }
}
