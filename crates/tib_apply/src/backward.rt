// Backward application, as what is hunted.
ghost use Rattle.std.specs.Prelude.{◌≡◌, ◌+◌, ◌<◌, ◌≤◌, ℕ, length, true, false, IsTrue, IfOk, IfErr, OnOk, Err};
ghost use Rattle.tib_cost.specs.Semiring.{most};
ghost use Rattle.tib_tree.specs.Trees.{size};
ghost use Rattle.tib_grammar.specs.Sides.{holes_of};
ghost use Rattle.tib_grammar.specs.Range.{StatesBelow};
ghost use Rattle.tib_transducer.specs.Outside.{demands, AllMeet};
ghost use Rattle.tib_transducer.specs.Faults.{IsClassFault};
ghost use Rattle.tib_expand.specs.Reached.{most_parts};
ghost use Rattle.tib_transducer.specs.Rules.{transducer_rule};
ghost use Rattle.tib_transducer.specs.Range.{IsShaped};
ghost use Rattle.tib_apply.specs.Restrictions.{restricted_labels};
ghost use Rattle.tib_apply.specs.Backward.{IsBackwardEdge};
ghost use Rattle.tib_transducer.specs.Moves.{IsStateIndex};
ghost use Rattle.tib_apply.specs.Listing.{AddsEdge, IsNext, IsTooMuch, IsWithinBudget, IsAlike, AreListedFrom};
ghost use Rattle.tib_apply.specs.BackwardLists.{edge_to, backward_edge, AdmitsRule, ListsMove, MoveOverruns, MovesOverrun, IsCheap};
ghost use Rattle.tib_match.specs.Searching.{AreMatchesWhere, AreMoreWhere};

use crate::edge_list::EdgeList;
use crate::key::Key;
use crate::placing::{number_variables, push_keys, states_by_variable};
use crate::restrictions::Restrictions;
use std::alloc::{AllocError, Global};
use tib_cost::{Cost, Semiring};
use tib_expand::ExpandError;
use tib_grammar::{Item, Rule};
use tib_match::{Match, Within, matches_within};
use tib_normal::Normal;
use tib_transducer::{ClassError, StateIndex, Transducer, TransducerRule, first_outside};

/// A linear and nondeleting transducer and a grammar, with what is looked up in them.
#[derive(Drop)]
pub struct Backward<'a, S> {
    /// The transducer.
    pub transducer: &'a Transducer<S>,
    /// The grammar.
    pub grammar: &'a Normal<S>,
    restrictions: Restrictions,
    moves: StateIndex,
    pub ghost numbered: { restrictions ≡ restricted_labels transducer.now.rules },
    pub ghost indexed: { IsStateIndex transducer.now.rules moves },
    pub ghost start: { 0 < length grammar.now.names },
    pub ghost range: { StatesBelow (length grammar.now.names) grammar.now.rules },
}

impl<'a, S: Semiring> Backward<'a, S> {
    /// What is hunted for a transducer and a grammar. `Class` exactly where the transducer is not
    /// linear and nondeleting: it names the first such rule, and linear comes before nondeleting.
    /// `OutOfMemory` only if memory is refused, or there are more than 4,000,000,000 labels of
    /// variables. Cost: a few passes over the rules of the transducer.
    pub fn new(
        alloc: Global,
        transducer: &'a Transducer<S>,
        grammar: &'a Normal<S>,
    ) -> Result<Backward<'a, S>, ClassError>
        ensures transducer { IfOk result (λ b. b.transducer.now ≡ transducer.now) }
        ensures grammar { IfOk result (λ b. b.grammar.now ≡ grammar.now) }
        ensures class { IfOk result (λ _. AllMeet (demands true true false false false)
            transducer.now.rules) }
        ensures fault { IfErr result (IsClassFault (demands true true false false false)
            transducer.now.rules) }
    {
        if let Some((rule, fault)) = first_outside(transducer, true, true, false, false, false) {
            return Err(ClassError::Class { rule, fault });
        }
        grammar.grammar().is_sound();
        let Ok(restrictions) = Restrictions::new(alloc, transducer.rule_list()) else {
            return Err(ClassError::OutOfMemory);
        };
        let Ok(moves) = StateIndex::new(alloc, transducer) else {
            return Err(ClassError::OutOfMemory);
        };
        Ok(Backward {
            transducer,
            grammar,
            restrictions,
            moves,
        })
    }

    // Puts the edge of a rule and a match after those of a list that has room for it.
    fn push_edge(
        &self,
        alloc: Global,
        rule: &TransducerRule<u32>,
        found: &Match,
        cost: Cost,
        list: &mut EdgeList,
    ) -> Result<(), AllocError>
        requires shaped { IsShaped rule.now }
        requires as_many { length found.now.0 ≡ length (holes_of rule.now.right) }
        requires cost { cost ≤ most }
        requires within { IsWithinBudget list.old }
        requires room { list.old.parts + (1 + size rule.now.left) ≤ list.old.budget }
        ensures added { let labels = restricted_labels self.now.transducer.now.rules in
            OnOk result ((key : ℕ × ℕ × ℕ) → AddsEdge key
            (edge_to labels key rule.now found.now.0 cost) list.old list.new) }
        ensures within { OnOk result (IsWithinBudget list.new) }
        ensures alike { IsAlike list.old list.new }
    {
        let first = list.ends.len() as u32;
        let items = rule.left.items();
        let states = states_by_variable(alloc, rule.right.items(), &found.states, items.len())?;
        push_keys(&self.restrictions, items, &states, &mut list.ends)?;
        let right = number_variables(alloc, &rule.left, first)?;
        let edge = Rule {
            left: list.position,
            right,
            cost,
        };
        list.rules.push(edge)?;
        list.parts += 1 + items.len() as u64;
        Ok(())
    }

    // Lists the edge of a rule and a match, unless its cost is too great. `More` comes exactly
    // where it has more parts than the budget leaves.
    fn add_edge(
        &self,
        alloc: Global,
        rule: &TransducerRule<u32>,
        found: &Match,
        list: &mut EdgeList,
    ) -> Result<(), ExpandError>
        requires shaped { IsShaped rule.now }
        requires as_many { length found.now.0 ≡ length (holes_of rule.now.right) }
        requires within { IsWithinBudget list.old }
        ensures next { let labels = restricted_labels self.now.transducer.now.rules in
            OnOk result ((key : ℕ × ℕ × ℕ) → IsNext key
            (backward_edge S.product labels key rule.now found.now) list.old list.new) }
        ensures more { let labels = restricted_labels self.now.transducer.now.rules in
            result ≡ Err ExpandError.More → (key : ℕ × ℕ × ℕ) →
            IsTooMuch (backward_edge S.product labels key rule.now found.now) list.old }
        ensures within { OnOk result (IsWithinBudget list.new) }
        ensures alike { IsAlike list.old list.new }
    {
        let Some(cost) = S::times(rule.cost, found.cost) else {
            return Ok(());
        };
        let parts = 1 + rule.left.items().len() as u64;
        if parts > list.budget - list.parts {
            return Err(ExpandError::More);
        }
        match self.push_edge(alloc, rule, found, cost, list) {
            Ok(()) => Ok(()),
            Err(_) => Err(ExpandError::OutOfMemory),
        }
    }

    // Whether the restriction of a key admits what a rule reads.
    fn admits(&self, key: Key, rule: &TransducerRule<u32>) -> bool
        ensures yes { IsTrue result → AdmitsRule (restricted_labels self.now.transducer.now.rules)
            key rule.now }
        ensures no { result ≡ false → AdmitsRule (restricted_labels self.now.transducer.now.rules)
            key rule.now → ⊥ }
    {
        match rule.left.items().first() {
            Some(item) => match item {
                Item::Label { label, .. } => self.restrictions.admits(key.restriction(), *label),
                Item::Hole(_) => false,
            },
            None => false,
        }
    }

    // The matches of the right-hand side of a rule, unless more than this many give an edge.
    fn matches_of(
        &self,
        alloc: Global,
        key: Key,
        rule: &TransducerRule<u32>,
        most: u64,
    ) -> Result<Vec<Match>, ExpandError>
        requires { key.1 < length self.now.grammar.now.names }
        ensures found { IfOk result (λ ms. AreMatchesWhere S.product self.now.grammar.now.rules
            rule.now.right key.1 (IsCheap S.product rule.now) ms.items) }
        ensures more { result ≡ Err ExpandError.More → AreMoreWhere S.product
            self.now.grammar.now.rules rule.now.right key.1 (IsCheap S.product rule.now) most }
    {
        let Ok(answer) = matches_within(
            alloc,
            self.grammar,
            key.second(),
            &rule.right,
            rule.cost,
            most,
        ) else {
            return Err(ExpandError::OutOfMemory);
        };
        match answer {
            Within::All(found) => Ok(found),
            Within::More => Err(ExpandError::More),
        }
    }

    // Lists the edges of the rule at a position of the transducer.
    fn add_move(
        &self,
        alloc: Global,
        key: Key,
        position: u32,
        list: &mut EdgeList,
    ) -> Result<(), ExpandError>
        requires below { position < length self.now.transducer.now.rules }
        requires state { (transducer_rule self.now.transducer.now.rules position).state ≡ key.0 }
        requires second { key.1 < length self.now.grammar.now.names }
        requires within { IsWithinBudget list.old }
        ensures listed { OnOk result (ListsMove S.product self.now.transducer.now.rules
            self.now.grammar.now.rules key position list.old list.new) }
        ensures more { result ≡ Err ExpandError.More →
            MoveOverruns S.product self.now.transducer.now.rules self.now.grammar.now.rules key
            position list.old }
        ensures within { OnOk result (IsWithinBudget list.new) }
        ensures alike { IsAlike list.old list.new }
    {
        self.transducer.is_sound();
        let rule = &self.transducer.rule_list()[position as usize];
        if !self.admits(key, rule) {
            return Ok(());
        }
        let most = list.budget / (1 + rule.left.items().len() as u64);
        let found = match self.matches_of(alloc, key, rule, most) {
            Ok(found) => found,
            Err(fault) => return Err(fault),
        };
        for one in &found {
            match self.add_edge(alloc, rule, one, list) {
                Ok(()) => {}
                Err(fault) => return Err(fault),
            }
        }
        Ok(())
    }

    /// The edges of a key at a position.
    pub(crate) fn list_edges(
        &self,
        alloc: Global,
        key: Key,
        position: u32,
        budget: u64,
    ) -> Result<EdgeList, ExpandError>
        requires second { key.1 < length self.now.grammar.now.names }
        requires budget { budget ≤ most_parts }
        ensures listed { IfOk result (AreListedFrom (IsBackwardEdge S.product
            self.now.transducer.now.rules self.now.grammar.now.rules key) key) }
        ensures more { result ≡ Err ExpandError.More →
            MovesOverrun S.product self.now.transducer.now.rules self.now.grammar.now.rules key
            budget }
        ensures within { IfOk result IsWithinBudget }
        ensures position { IfOk result (λ l. l.position ≡ position) }
        ensures budget { IfOk result (λ l. l.budget ≡ budget) }
    {
        let mut list = EdgeList::new(alloc, position, budget);
        for place in self.moves.of(key.first()) {
            match self.add_move(alloc, key, *place, &mut list) {
                Ok(()) => {}
                Err(fault) => return Err(fault),
            }
        }
        Ok(list)
    }
}
