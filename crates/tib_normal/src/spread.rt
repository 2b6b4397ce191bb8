// How each right side spreads against the chain rules to the states that get it.
ghost use Rattle.tib_lex.specs.Lists.{total};
ghost use Rattle.std.specs.Prelude.{◌≡◌, ℕ, ◌+◌, ◌<◌, ◌≤◌, ◌^◌, ◌⊎◌, List, [], ◌∷◌, ◌++◌, length, slice_set, OnOk, IfOk, IfErr, None, Some};
ghost use Rattle.std.proofs.Common.{get_or};
ghost use Rattle.tib_grammar.specs.Range.{AreBelow, AreInRange};
ghost use Rattle.tib_grammar.specs.ShapeBuckets.{lists_of};
ghost use Rattle.tib_normal.specs.Rows.{IfTooMany};
ghost use Rattle.tib_normal.specs.Links.{AreLinks};
ghost use Rattle.tib_normal.specs.Ways.{AreWays};
ghost use Rattle.tib_normal.specs.Closure.{IsStep, Spreads, Skips, Settles, AreListed, IsClear};
ghost use Rattle.tib_normal.specs.Gathered.{AreFull, AreGathered, HaveMoreParts, row_parts};

use crate::agenda::Agenda;
use crate::error::NormalError;
use crate::links::Links;
use crate::row::Row;
use crate::rows::Made;
use crate::sides::Sides;
use crate::ways::Ways;
use std::alloc::{AllocError, Global};
use tib_cost::{Cost, Semiring};
use tib_grammar::Rule;

/// Adds the left state of a rule, at the product of a cost and the rule's, where that is at most
/// the greatest.
fn add_left<S: Semiring>(
    rule: &Rule<u32>,
    cost: Cost,
    agenda: &mut Agenda,
) -> Result<(), AllocError>
    ensures { OnOk result (IsStep S.product rule.now cost agenda.old agenda.new) }
{
    let longer = match S::times(cost, rule.cost) {
        Some(longer) => longer,
        None => return Ok(()),
    };
    agenda.push(longer, rule.left)?;
    Ok(())
}

/// Adds the left states of the rules with a key, each at the product of a cost and the rule's.
fn add_lefts<S: Semiring>(
    rules: &[Rule<u32>],
    links: &Links,
    key: u32,
    cost: Cost,
    agenda: &mut Agenda,
) -> Result<(), AllocError>
    requires links { (keys : List ℕ) × (length keys ≡ length rules.now)
        × AreLinks keys (length links.now.first.items) links.now }
    requires below { key < length links.now.first.items }
    ensures { (keys : List ℕ) → length keys ≡ length rules.now →
        AreLinks keys (length links.now.first.items) links.now →
        OnOk result (Spreads S.product rules.now keys key cost (length rules.now) agenda.old
        agenda.new) }
{
    let mut n = links.first[key as usize] as usize;
    while n < rules.len() {
        add_left::<S>(&rules[n], cost, agenda)?;
        n = links.next[n] as usize;
    }
    Ok(())
}

/// The states that one side has reached, with its least cost at each, and those that wait.
#[derive(Drop)]
pub struct Spread {
    pub agenda: Agenda,
    pub costs: Vec<Option<Cost>>,
    pub reached: Vec<u32>,
}

impl Spread {
    /// This number of states, none of them reached. Err only if memory is refused. It takes time
    /// and memory in proportion to the states.
    pub fn new(alloc: Global, states: usize) -> Result<Spread, AllocError>
        ensures long { IfOk result (λ s. length s.costs.items ≡ states) }
        ensures clear { IfOk result IsClear }
    {
        let mut costs = Vec::with_capacity(alloc, states)?;
        for _ in 0..states {
            costs.push(None)?;
        }
        Ok(Spread {
            agenda: Agenda::new(alloc),
            costs,
            reached: Vec::new(alloc),
        })
    }

    /// Gives a state its cost, and queues the left states of the chain rules to it.
    fn settle<S: Semiring>(
        &mut self,
        rules: &[Rule<u32>],
        chains: &Links,
        state: u32,
        cost: Cost,
    ) -> Result<(), AllocError>
        requires links { (keys : List ℕ) × (length keys ≡ length rules.now)
            × AreLinks keys (length chains.now.first.items) chains.now }
        requires below { state < length chains.now.first.items }
        requires long { length self.old.costs.items ≡ length chains.now.first.items }
        ensures set { self.new.costs.items ≡ slice_set self.old.costs.items state (Some cost) }
        ensures list { OnOk result (self.new.reached.items ≡ self.old.reached.items ++ state ∷ []) }
        ensures spreads { (keys : List ℕ) → length keys ≡ length rules.now →
            AreLinks keys (length chains.now.first.items) chains.now →
            OnOk result (Spreads S.product rules.now keys state cost (length rules.now)
            self.old.agenda self.new.agenda) }
    {
        self.costs[state as usize] = Some(cost);
        self.reached.push(state)?;
        add_lefts::<S>(rules, chains, state, cost, &mut self.agenda)
    }

    /// Gives the state of a row its cost and keeps the row, where the state has no cost yet.
    fn visit<S: Semiring>(
        &mut self,
        rules: &[Rule<u32>],
        chains: &Links,
        row: &Row,
        parts: u64,
        made: &mut Made,
    ) -> Result<(), NormalError>
        requires links { (keys : List ℕ) × (length keys ≡ length rules.now)
            × AreLinks keys (length chains.now.first.items) chains.now }
        requires below { row.now.state < length chains.now.first.items }
        requires long { length self.old.costs.items ≡ length chains.now.first.items }
        requires some { 1 ≤ parts }
        ensures limit { made.new.limit ≡ made.old.limit }
        ensures visits { (ends : List ℕ) → length ends ≡ length rules.now →
            AreLinks ends (length chains.now.first.items) chains.now →
            OnOk result (Skips row.now self.old self.new made.old.rows.items made.new.rows.items
            made.old.parts made.new.parts
            ⊎ Settles S.product rules.now ends row.now parts self.old self.new made.old.rows.items
            made.new.rows.items made.old.parts made.new.parts) }
        ensures unknown { IfErr result (λ _. get_or self.old.costs.items row.now.state None
            ≡ None) }
        ensures many { IfErr result (λ e. IfTooMany e made.old.limit (made.old.limit
            < made.old.parts + parts)) }
    {
        if self.costs[row.state as usize].is_some() {
            return Ok(());
        }
        match made.add(row.state, row.side, row.cost, parts) {
            Ok(()) => {}
            Err(error) => return Err(error),
        }
        self.settle::<S>(rules, chains, row.state, row.cost)?;
        Ok(())
    }

    /// Forgets the costs of the states that were reached.
    fn forget(&mut self)
        requires below { AreBelow (length self.old.costs.items) self.old.reached.items }
        requires listed { AreListed self.old.costs.items self.old.reached.items }
        requires waiting { self.old.agenda ≡ [] }
        ensures long { length self.new.costs.items ≡ length self.old.costs.items }
        ensures clear { IsClear self.new }
    {
        while let Some(state) = self.reached.pop() {
            self.costs[state as usize] = None;
        }
    }

    /// Gives each state that gets a side a row at its least cost: from the rules with this side
    /// against the chain rules, the least cost first (Dijkstra 1959).
    ///
    /// It takes time for the states that get the side and the chain rules to them, each with the
    /// logarithm of their number, and none for other states.
    fn follow<S: Semiring>(
        &mut self,
        rules: &[Rule<u32>],
        ways: &Ways,
        sides: &Sides,
        side: u32,
        made: &mut Made,
    ) -> Result<(), NormalError>
        requires ways { AreWays rules.now sides.now.numbers.items (length sides.now.table.keys)
            (length self.old.costs.items) ways.now }
        requires range { AreInRange (length self.old.costs.items) rules.now }
        requires few { length self.old.costs.items < 2 ^ 32 }
        requires side { side < length sides.now.table.keys }
        requires full { AreFull (lists_of sides.now.table.keys) }
        requires clear { IsClear self.old }
        requires gathered { AreGathered S.product rules.now sides.now.numbers.items (side + 1)
            (length sides.now.table.keys) (length self.old.costs.items) made.old.rows.items }
        ensures long { OnOk result (length self.new.costs.items ≡ length self.old.costs.items) }
        ensures clear { OnOk result (IsClear self.new) }
        ensures gathered { OnOk result (AreGathered S.product rules.now sides.now.numbers.items side
            (length sides.now.table.keys) (length self.old.costs.items) made.new.rows.items) }
        ensures parts { OnOk result (made.new.parts + total
            (row_parts (lists_of sides.now.table.keys)) made.old.rows.items
            ≡ made.old.parts + total (row_parts (lists_of sides.now.table.keys))
            made.new.rows.items) }
        ensures limit { made.new.limit ≡ made.old.limit }
        ensures many { IfErr result (λ e. IfTooMany e made.old.limit
            (HaveMoreParts S.product rules.now sides.now.numbers.items (length sides.now.table.keys)
            (length self.old.costs.items) (lists_of sides.now.table.keys) made.old.rows.items
            made.old.parts made.old.limit)) }
    {
        let key = match sides.table.get_index(side as usize) {
            Some(key) => key,
            None => unreachable!(),
        };
        let parts = 1 + key.len() as u64;
        add_lefts::<S>(rules, &ways.with_side, side, S::one(), &mut self.agenda)?;
        while let Some(entry) = self.agenda.pop() {
            let row = Row {
                state: entry.1,
                side,
                cost: entry.0,
            };
            match self.visit::<S>(rules, &ways.to_state, &row, parts, made) {
                Ok(()) => {}
                Err(error) => return Err(error),
            }
        }
        self.forget();
        Ok(())
    }
}

/// Gathers the rows of all sides, the last side first. It stops with `TooMany` as soon as their
/// rules have more parts than the limit, and with `OutOfMemory` if memory is refused; the rows
/// gathered so far stay. It takes time for each row and the chain rules to its state, besides one
/// pass over the states and rules.
pub fn gather<S: Semiring>(
    alloc: Global,
    rules: &[Rule<u32>],
    ways: &Ways,
    sides: &Sides,
    states: u32,
    made: &mut Made,
) -> Result<(), NormalError>
    requires ways { AreWays rules.now sides.now.numbers.items (length sides.now.table.keys) states
        ways.now }
    requires range { AreInRange states rules.now }
    requires few { length sides.now.table.keys < 2 ^ 32 }
    requires full { AreFull (lists_of sides.now.table.keys) }
    requires none { made.old.rows.items ≡ [] }
    ensures gathered { OnOk result (AreGathered S.product rules.now sides.now.numbers.items 0
        (length sides.now.table.keys) states made.new.rows.items) }
    ensures parts { OnOk result (made.new.parts
        ≡ made.old.parts + total (row_parts (lists_of sides.now.table.keys)) made.new.rows.items) }
    ensures limit { made.new.limit ≡ made.old.limit }
    ensures many { IfErr result (λ e. IfTooMany e made.old.limit
        (HaveMoreParts S.product rules.now sides.now.numbers.items (length sides.now.table.keys)
        states (lists_of sides.now.table.keys) [] made.old.parts made.old.limit)) }
{
    let mut spread = Spread::new(alloc, states as usize)?;
    let mut side = sides.table.len();
    while side > 0 {
        side -= 1;
        match spread.follow::<S>(rules, ways, sides, side as u32, made) {
            Ok(()) => {}
            Err(error) => return Err(error),
        }
    }
    Ok(())
}
