// The rules of the states of the grammar in its normal form, as they are gathered and arranged.
ghost use Rattle.std.specs.Prelude.{◌≡◌, ℕ, ◌+◌, ◌<◌, ◌≤◌, ◌^◌, List, [], ◌∷◌, ◌++◌, length, OnOk, IfOk, IfErr};
ghost use Rattle.tib_lex.specs.Limits.{most_parts};
ghost use Rattle.tib_grammar.specs.ShapeBuckets.{lists_of};
ghost use Rattle.tib_normal.specs.Rows.{IfTooMany, side_of};
ghost use Rattle.tib_normal.specs.Links.{AreLinks};
ghost use Rattle.tib_normal.specs.Gathered.{AreFull, AreReady, rule_of, row_parts};
ghost use Rattle.tib_normal.specs.Arranging.{states_of, IsArranging, AreArranged};

use crate::error::NormalError;
use crate::links::Links;
use crate::row::Row;
use crate::sides::Sides;
use std::alloc::{AllocError, Global};
use tib_cost::Cost;
use tib_grammar::{Rule, Side};

/// The rows so far and the parts of the rules that they stand for, which are at most the limit.
#[derive(Drop)]
pub struct Made {
    pub rows: Vec<Row>,
    pub parts: u64,
    pub limit: u64,
    ghost within: { parts ≤ limit },
    ghost small: { limit ≤ most_parts },
    ghost few: { length rows.items ≤ parts },
}

impl Made {
    /// Adds the row of a state, a side and a cost, if the parts of its rule keep the sum within the
    /// limit; else `TooMany`, and nothing is added. `OutOfMemory` if memory is refused, and then
    /// the parts are counted without the row.
    pub fn add(&mut self, state: u32, side: u32, cost: Cost, parts: u64) -> Result<(), NormalError>
        requires { 1 ≤ parts }
        ensures rows { OnOk result (self.new.rows.items ≡ self.old.rows.items
            ++ record { state = state; side = side; cost = cost } ∷ []) }
        ensures parts { OnOk result (self.new.parts ≡ self.old.parts + parts) }
        ensures limit { self.new.limit ≡ self.old.limit }
        ensures many { IfErr result (λ e. IfTooMany e self.old.limit (self.old.limit
            < self.old.parts + parts)) }
    {
        if parts > self.limit || self.parts > self.limit - parts {
            return Err(NormalError::TooMany { limit: self.limit });
        }
        self.parts += parts;
        match self.rows.push(Row { state, side, cost }) {
            Ok(()) => Ok(()),
            Err(_) => Err(NormalError::OutOfMemory),
        }
    }
}

/// The right side that a key stands for: its label over its states.
fn make_side(alloc: Global, key: &[u32]) -> Result<Side<u32>, AllocError>
    requires full { 0 < length key.now }
    requires short { length key.now < 2 ^ 32 }
    ensures { IfOk result (λ side. side ≡ side_of key.now) }
{
    match key {
        [label, states @ ..] => Ok(Side::over(alloc, *label, states)?),
        [] => unreachable!(),
    }
}

/// The rule that a row stands for.
fn make_rule(alloc: Global, row: &Row, sides: &Sides) -> Result<Rule<u32>, AllocError>
    requires below { row.now.side < length sides.now.table.keys }
    requires few { row_parts (lists_of sides.now.table.keys) row.now < 2 ^ 32 }
    requires full { AreFull (lists_of sides.now.table.keys) }
    ensures { IfOk result (λ r. r ≡ rule_of (lists_of sides.now.table.keys) row.now) }
{
    let key = match sides.table.get_index(row.side as usize) {
        Some(key) => key,
        None => unreachable!(),
    };
    let right = make_side(alloc, key)?;
    Ok(Rule {
        left: row.state,
        right,
        cost: row.cost,
    })
}

/// The states of some rows.
fn states_in(alloc: Global, rows: &[Row]) -> Result<Vec<u32>, AllocError>
    ensures { IfOk result (λ states. states.items ≡ states_of rows.now) }
{
    let mut states = Vec::with_capacity(alloc, rows.len())?;
    for row in rows {
        states.push(row.state)?;
    }
    Ok(states)
}

/// Lists the rules of the rows of one state.
fn list_state(
    alloc: Global,
    rows: &[Row],
    links: &Links,
    state: u32,
    sides: &Sides,
    rules: &mut Vec<Rule<u32>>,
) -> Result<(), AllocError>
    requires links { AreLinks (states_of rows.now) (length links.now.first.items) links.now }
    requires below { state < length links.now.first.items }
    requires ready { AreReady (length sides.now.table.keys) (lists_of sides.now.table.keys)
        rows.now }
    requires full { AreFull (lists_of sides.now.table.keys) }
    requires arranging { IsArranging (lists_of sides.now.table.keys) rows.now state 0
        rules.old.items }
    ensures { OnOk result (IsArranging (lists_of sides.now.table.keys) rows.now state
        (length rows.now) rules.new.items) }
{
    let mut n = links.first[state as usize] as usize;
    while n < rows.len() {
        rules.push(make_rule(alloc, &rows[n], sides)?)?;
        n = links.next[n] as usize;
    }
    Ok(())
}

/// The rules that the rows stand for, in ascending order of their left states: those of a state are
/// in the order of its rows. It takes one pass over the states and one over the rows and their
/// sides. Err only if memory is refused.
pub fn arrange(
    alloc: Global,
    rows: &[Row],
    sides: &Sides,
    states: u32,
) -> Result<Vec<Rule<u32>>, AllocError>
    requires few { length rows.now < 2 ^ 32 }
    requires ready { AreReady (length sides.now.table.keys) (lists_of sides.now.table.keys)
        rows.now }
    requires full { AreFull (lists_of sides.now.table.keys) }
    ensures { IfOk result (λ rules. AreArranged (lists_of sides.now.table.keys) rows.now states
        rules.items) }
{
    let links = Links::new(alloc, &states_in(alloc, rows)?, states as usize)?;
    let mut rules = Vec::with_capacity(alloc, rows.len())?;
    for state in 0..states {
        list_state(alloc, rows, &links, state, sides, &mut rules)?;
    }
    Ok(rules)
}
