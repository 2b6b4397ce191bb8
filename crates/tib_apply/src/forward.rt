//! Forward application, as what is hunted: the edges of a key.

ghost use Rattle.std.specs.Prelude.{◌≡◌, ℕ, ◌<◌, ◌≤◌, length, map, Some, true, false, IsTrue, IfOk, IfErr, OnOk, Err};
ghost use Rattle.tib_lex.specs.Lists.{Each};
ghost use Rattle.tib_cost.specs.Least.{times};
ghost use Rattle.tib_transducer.specs.Outside.{demands, AllMeet};
ghost use Rattle.tib_transducer.specs.Faults.{IsClassFault};
ghost use Rattle.tib_grammar.specs.Sides.{label as label_symbol};
ghost use Rattle.tib_expand.specs.Reached.{most_parts};
ghost use Rattle.tib_transducer.specs.Rules.{transducer_rule};
ghost use Rattle.tib_apply.specs.Restrictions.{restricted_labels, Admits};
ghost use Rattle.tib_apply.specs.TableEdges.{IsTableEdge};
ghost use Rattle.tib_key_edges.specs.Listing.{IsWithinBudget};
ghost use Rattle.tib_match.specs.Searching.{AreMatchesWhere, AreMoreWhere};
ghost use Rattle.tib_apply.specs.ForwardLists.{HoleStatesBelow, IsAtMatch, IsAffordable, ListsOrigin, OriginOverruns, ListsRule, RuleOverruns, ListsKey, KeyOverruns};
ghost use Rattle.tib_apply.specs.ForwardPlans.{asked_at, HasPlans};
ghost use Rattle.tib_apply.specs.LeastRuns.{AreLeastRuns, deleted_in};
ghost use Rattle.tib_transducer.specs.Moves.{IsStateIndex};

use crate::deleting::{LeastRuns, product_of};
use crate::forward_listing::{ForwardListing, add_edge};
use crate::forward_plan::{Plan, plans_of};
use crate::key::Key;
use crate::restrictions::Restrictions;
use std::alloc::{AllocError, Global};
use tib_cost::{Cost, Semiring};
use tib_expand::ExpandError;
use tib_grammar::Item;
use tib_match::{FEW_PARTIAL_MATCHES, Match, Within, few_matches, matches_beyond_few};
use tib_normal::Normal;
use tib_transducer::{ClassError, StateIndex, Transducer, TransducerRule, first_outside};

/// A grammar and a linear transducer, with what is looked up in them.
#[derive(Drop)]
pub struct Forward<'a, S> {
    /// The grammar.
    pub grammar: &'a Normal<S>,
    /// The transducer.
    pub transducer: &'a Transducer<S>,
    restrictions: Restrictions,
    moves: StateIndex,
    plans: Vec<Plan>,
    runs: LeastRuns,
    pub ghost restricted: { restrictions ≡ restricted_labels transducer.now.rules },
    pub ghost indexed: { IsStateIndex transducer.now.rules moves },
    pub ghost planned: { HasPlans (restricted_labels transducer.now.rules) transducer.now.rules plans.items },
    pub ghost start: { 0 < length grammar.now.names },
    pub ghost range: { HoleStatesBelow (length grammar.now.names) grammar.now.rules },
}

impl<'a, S: Semiring> Forward<'a, S> {
    /// What is hunted for a grammar and a transducer. `Class` exactly where the transducer is not
    /// linear: it names the first such rule. `OutOfMemory` only if memory is refused, or there are
    /// more than 4,000,000,000 labels of variables. Cost: a few passes over the rules of both, with
    /// one look-up by hash for each rule of the grammar, and the inside costs of the grammar.
    pub fn new(
        alloc: Global,
        grammar: &'a Normal<S>,
        transducer: &'a Transducer<S>,
    ) -> Result<Forward<'a, S>, ClassError>
        ensures grammar { IfOk result (λ f. f.grammar.now ≡ grammar.now) }
        ensures transducer { IfOk result (λ f. f.transducer.now ≡ transducer.now) }
        ensures least { IfOk result (λ f. AreLeastRuns S.product grammar.now.rules f.runs) }
        ensures class { IfOk result (λ _. AllMeet (demands true false false false false)
            transducer.now.rules) }
        ensures fault { IfErr result (IsClassFault (demands true false false false false)
            transducer.now.rules) }
    {
        if let Some((rule, fault)) = first_outside(transducer, true, false, false, false, false) {
            return Err(ClassError::Class { rule, fault });
        }
        match Forward::indexed(alloc, grammar, transducer) {
            Ok(forward) => Ok(forward),
            Err(_) => Err(ClassError::OutOfMemory),
        }
    }

    /// The same for a transducer that is known to be linear.
    fn indexed(
        alloc: Global,
        grammar: &'a Normal<S>,
        transducer: &'a Transducer<S>,
    ) -> Result<Forward<'a, S>, AllocError>
        ensures grammar { IfOk result (λ f. f.grammar.now ≡ grammar.now) }
        ensures transducer { IfOk result (λ f. f.transducer.now ≡ transducer.now) }
        ensures least { IfOk result (λ f. AreLeastRuns S.product grammar.now.rules f.runs) }
    {
        grammar.grammar().is_sound();
        transducer.is_sound();
        let restrictions = Restrictions::new(alloc, transducer.rule_list())?;
        let moves = StateIndex::new(alloc, transducer)?;
        let plans = plans_of(alloc, &restrictions, transducer.rule_list())?;
        let runs = LeastRuns::new::<S>(alloc, grammar)?;
        Ok(Forward {
            grammar,
            transducer,
            restrictions,
            moves,
            plans,
            runs,
        })
    }

    /// Whether the restriction of a key admits the label with which a left-hand side begins.
    fn admits(&self, key: Key, rule: &TransducerRule<u32>) -> bool
        ensures yes { IsTrue result → (root : ℕ) × (rule.now.left.label ≡ label_symbol root)
            × Admits self.now.restrictions key.2 root }
        ensures no { result ≡ false → (root : ℕ) → rule.now.left.label ≡ label_symbol root →
            Admits self.now.restrictions key.2 root → ⊥ }
    {
        match &rule.left.items()[0] {
            Item::Label { label, .. } => self.restrictions.admits(key.restriction(), *label),
            Item::Hole(_) => false,
        }
    }

    /// The cost of the edge of a rule and a match, none where it has none or it is above the
    /// greatest cost.
    fn edge_cost(&self, rule: &TransducerRule<u32>, plan: &Plan, found: &Match) -> Option<Cost>
        requires { Each (λ x. x.number < length found.now.0) plan.now.left_out.items }
        ensures { result ≡ times S.product (times S.product (Some rule.now.cost) (Some found.now.1))
            (deleted_in S.product self.now.runs (map (asked_at found.now.0)
            plan.now.left_out.items)) }
    {
        let below = self
            .runs
            .total::<S>(&plan.left_out, found.states.as_slice());
        product_of::<S>(S::times(rule.cost, found.cost), below)
    }

    /// Lists the edge of the rule at a position of the transducer and of a match of its left-hand
    /// side, unless its cost is too great.
    fn list_match(
        &self,
        key: Key,
        position: u32,
        found: &Match,
        listing: &mut ForwardListing<'a>,
    ) -> Result<(), ExpandError>
        requires at { IsAtMatch S.product self.now.grammar.now.rules self.now.transducer.now.rules
            key position found.now }
        requires within { IsWithinBudget listing.old }
        ensures listed { let gives = IsTableEdge S.product self.now.grammar.now.rules
            self.now.transducer.now.rules self.now.runs key in
            OnOk result (ListsOrigin gives key (position, found.now.0) listing.old listing.new) }
        ensures more { let gives = IsTableEdge S.product self.now.grammar.now.rules
            self.now.transducer.now.rules self.now.runs key in
            result ≡ Err ExpandError.More → OriginOverruns gives key (position, found.now.0)
            listing.old }
        ensures within { OnOk result (IsWithinBudget listing.new) }
        ensures position { listing.new.position ≡ listing.old.position }
        ensures budget { listing.new.budget ≡ listing.old.budget }
    {
        let transducer = self.transducer;
        transducer.is_sound();
        self.grammar.grammar().is_sound();
        let rule = &transducer.rule_list()[position as usize];
        let plan = &self.plans[position as usize];
        let Some(cost) = self.edge_cost(rule, plan, found) else {
            return Ok(());
        };
        add_edge(
            listing,
            &rule.right,
            &plan.ends,
            found.states.as_slice(),
            cost,
        )
    }

    /// The matches of the left-hand side of the rule at a position that give an edge, among others;
    /// `More` where these are more than `most`. It is for sides on which `few_matches` gave up.
    fn search(
        &self,
        alloc: Global,
        key: Key,
        position: u32,
        most: u64,
    ) -> Result<Vec<Match>, ExpandError>
        requires below { position < length self.now.transducer.now.rules }
        requires first { key.0 < length self.now.grammar.now.names }
        ensures found { let rule = transducer_rule self.now.transducer.now.rules position in
            IfOk result (λ ms. AreMatchesWhere S.product self.now.grammar.now.rules rule.left key.0
            (IsAffordable S.product self.now.runs rule) ms.items) }
        ensures more { let rule = transducer_rule self.now.transducer.now.rules position in
            result ≡ Err ExpandError.More → AreMoreWhere S.product self.now.grammar.now.rules
            rule.left key.0 (IsAffordable S.product self.now.runs rule) most }
    {
        self.transducer.is_sound();
        let grammar = self.grammar.grammar();
        let rule = &self.transducer.rule_list()[position as usize];
        let plan = &self.plans[position as usize];
        let left = rule.left.items();
        let Ok(costs) = self
            .runs
            .hole_costs(alloc, grammar.states(), &plan.kept, left)
        else {
            return Err(ExpandError::OutOfMemory);
        };
        let Ok(answer) = matches_beyond_few(
            alloc,
            self.grammar,
            key.first(),
            &rule.left,
            rule.cost,
            &costs,
            most,
        ) else {
            return Err(ExpandError::OutOfMemory);
        };
        match answer {
            Within::All(all) => Ok(all),
            Within::More => Err(ExpandError::More),
        }
    }

    /// The matches of the left-hand side of the rule at a position that give an edge, among others;
    /// `More` where these are more than `most`. Cost: that of `few_matches` with
    /// `FEW_PARTIAL_MATCHES`, and where it gives up that of `matches_beyond_few`.
    fn matches_of(
        &self,
        alloc: Global,
        key: Key,
        position: u32,
        most: u64,
    ) -> Result<Vec<Match>, ExpandError>
        requires below { position < length self.now.transducer.now.rules }
        requires first { key.0 < length self.now.grammar.now.names }
        ensures found { let rule = transducer_rule self.now.transducer.now.rules position in
            IfOk result (λ ms. AreMatchesWhere S.product self.now.grammar.now.rules rule.left key.0
            (IsAffordable S.product self.now.runs rule) ms.items) }
        ensures more { let rule = transducer_rule self.now.transducer.now.rules position in
            result ≡ Err ExpandError.More → AreMoreWhere S.product self.now.grammar.now.rules
            rule.left key.0 (IsAffordable S.product self.now.runs rule) most }
    {
        let rule = &self.transducer.rule_list()[position as usize];
        let few = FEW_PARTIAL_MATCHES;
        let Ok(answer) = few_matches(alloc, self.grammar, key.first(), &rule.left, few) else {
            return Err(ExpandError::OutOfMemory);
        };
        match answer {
            Some(few) => Ok(few),
            None => self.search(alloc, key, position, most),
        }
    }

    /// Lists the edges of the rule at a position of the transducer.
    fn list_rule(
        &self,
        alloc: Global,
        key: Key,
        position: u32,
        listing: &mut ForwardListing<'a>,
    ) -> Result<(), ExpandError>
        requires below { position < length self.now.transducer.now.rules }
        requires state { (transducer_rule self.now.transducer.now.rules position).state ≡ key.1 }
        requires first { key.0 < length self.now.grammar.now.names }
        requires within { IsWithinBudget listing.old }
        ensures listed { let gives = IsTableEdge S.product self.now.grammar.now.rules
            self.now.transducer.now.rules self.now.runs key in
            OnOk result (ListsRule gives key position listing.old listing.new) }
        ensures more { let gives = IsTableEdge S.product self.now.grammar.now.rules
            self.now.transducer.now.rules self.now.runs key in
            result ≡ Err ExpandError.More → RuleOverruns gives key position listing.old }
        ensures within { OnOk result (IsWithinBudget listing.new) }
        ensures position { listing.new.position ≡ listing.old.position }
        ensures budget { listing.new.budget ≡ listing.old.budget }
    {
        let rule = &self.transducer.rule_list()[position as usize];
        if !self.admits(key, rule) {
            return Ok(());
        }
        let most = listing.budget / (1 + rule.right.items().len() as u64);
        let all = match self.matches_of(alloc, key, position, most) {
            Ok(all) => all,
            Err(fault) => return Err(fault),
        };
        for found in &all {
            match self.list_match(key, position, found, listing) {
                Ok(()) => {}
                Err(fault) => return Err(fault),
            }
        }
        Ok(())
    }

    /// The edges of a key at a position.
    pub(crate) fn list_edges(
        &self,
        alloc: Global,
        key: Key,
        position: u32,
        budget: u64,
    ) -> Result<ForwardListing<'a>, ExpandError>
        requires first { key.0 < length self.now.grammar.now.names }
        requires budget { budget ≤ most_parts }
        ensures listed { let gives = IsTableEdge S.product self.now.grammar.now.rules
            self.now.transducer.now.rules self.now.runs key in
            IfOk result (ListsKey gives key position) }
        ensures more { let gives = IsTableEdge S.product self.now.grammar.now.rules
            self.now.transducer.now.rules self.now.runs key in
            result ≡ Err ExpandError.More → KeyOverruns gives key position budget }
        ensures within { IfOk result IsWithinBudget }
        ensures budget { IfOk result (λ l. l.budget ≡ budget) }
    {
        let mut listing = ForwardListing::new(alloc, position, budget);
        for move_position in self.moves.of(key.second()) {
            match self.list_rule(alloc, key, *move_position, &mut listing) {
                Ok(()) => {}
                Err(fault) => return Err(fault),
            }
        }
        Ok(listing)
    }
}
