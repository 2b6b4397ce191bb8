//! The state of a hunt: its keys, rules, rows and parts, with the steps that begin it, take a round
//! in and put its keys in order.

ghost use Rattle.std.specs.Prelude.{◌≡◌, ◌+◌, ◌≤◌, ◌<◌, ◌^◌, ◌++◌, [], length, map, take, drop, IfOk, IfErr, OnOk};
ghost use Rattle.indexmap.specs.IndexSet.{insert_all};
ghost use Rattle.tib_lex.specs.Lists.{Has, Each, Distinct, total};
ghost use Rattle.tib_table.specs.Lookups.{IsNeedless};
ghost use Rattle.tib_expand.specs.Reached.{IfTooMany, IsBeyond, most_parts};
ghost use Rattle.tib_hunt.specs.Numbered.{HaveMore, AddsParts, placed, keys_of};
ghost use Rattle.tib_expand.specs.Keys.{key_parts};
ghost use Rattle.tib_hunt.specs.Rows.{numbered, IsRowBelow};
ghost use Rattle.tib_hunt.specs.Shelved.{all_on};
ghost use Rattle.tib_hunt.specs.States.{AddsEdges, AreSettled, IsBetweenRounds, IsExpanded, WorksRound, shelves_of, ArePlaced, HavePositions, LacksAll, rows_in};

use crate::lookups::Ruled;
use crate::row::{Row, settle_rows};
use crate::shelved_round::Worked;
use indexmap::IndexSet;
use std::alloc::{AllocError, Global};
use tib_expand::{Edges, Expand, ExpandError, HuntError, TableKey};
use tib_table::{Lookup, count_keys, find_shelves, number_ends, put_fresh, sort_new};
use tib_workers::Row as ItemRow;

/// The keys so far, the rules over their positions, the rows of the round, and the parts of all.
#[derive(Drop)]
pub(crate) struct HuntState<E: Expand> {
    pub keys: IndexSet<E::Key>,
    pub rules: Vec<E::Rule>,
    pub rows: Vec<Row<E::Over>>,
    pub parts: u64,
}

/// What is taken in from a round: its fresh keys, each with its index among them; the positions of
/// the keys of its shelves, where the fresh keys follow the order; and its rows.
#[derive(Drop)]
pub(crate) struct TakenIn<K, R> {
    pub fresh: Vec<(K, u32)>,
    pub positions: Vec<Vec<u32>>,
    pub rows: Vec<ItemRow<Ruled<R>>>,
}

impl<E: Expand> HuntState<E> {
    /// Appends the edges as a row, and numbers their ends. Adds the parts of the edges and of the
    /// new keys; `TooMany` if they pass the limit, `OutOfMemory` if memory is refused. After an
    /// error part of the keys may have been added.
    pub fn add_edges(
        &mut self,
        alloc: Global,
        limit: u64,
        edges: Edges<E::Key, E::Over>,
    ) -> Result<(), HuntError>
        requires counted { total (key_parts E.Key.entries_of) self.old.keys.keys ≤ self.old.parts }
        requires within { self.old.parts + edges.parts ≤ limit }
        requires limit { limit ≤ most_parts }
        ensures keys { OnOk result (self.new.keys.keys ≡ insert_all E.Key.eq self.old.keys.keys
            edges.ends.items) }
        ensures row { OnOk result (AddsEdges edges self.old self.new) }
        ensures rules { OnOk result (self.new.rules ≡ self.old.rules) }
        ensures parts { OnOk result (AddsParts (key_parts E.Key.entries_of) self.old.keys.keys
            self.new.keys.keys (self.old.parts + edges.parts) self.new.parts) }
        ensures within { OnOk result (self.new.parts ≤ limit) }
        ensures more { IfErr result (IfTooMany limit (HaveMore E.Key.eq (key_parts E.Key.entries_of)
            self.old.keys.keys edges.ends.items (self.old.parts + edges.parts) limit)) }
    {
        self.parts += edges.parts;
        let ends = match number_ends(alloc, &mut self.keys, &mut self.parts, limit, edges.ends) {
            Ok(ends) => ends,
            Err(error) => return Err(error),
        };
        let row = Row {
            rules: edges.rules,
            ends,
        };
        let Ok(()) = self.rows.push(row) else {
            return Err(HuntError::OutOfMemory);
        };
        Ok(())
    }

    /// Takes in what a round made: its fresh keys, which are those of the shelves that the order
    /// lacks, and the positions of all keys of the shelves. Adds the parts of the fresh keys;
    /// `TooMany` if they pass the limit, `OutOfMemory` if memory is refused. A look-up is needless
    /// only if the order has none of the keys of the shelves.
    pub fn take_in(
        &mut self,
        alloc: Global,
        limit: u64,
        lookup: Lookup,
        worked: Worked<E::Key, E::Over>,
    ) -> Result<TakenIn<E::Key, E::Over>, HuntError>
        requires lacked { IsNeedless lookup → (k : E.Key) → Has (all_on (shelves_of worked)) k
            → Has self.old.keys.keys k → ⊥ }
        requires once { Distinct (all_on (shelves_of worked)) }
        requires counted { total (key_parts E.Key.entries_of) self.old.keys.keys ≤ worked.parts }
        requires within { worked.parts ≤ limit }
        requires limit { limit ≤ most_parts }
        ensures order { OnOk result (self.new.keys.keys ≡ self.old.keys.keys) }
        ensures keys { IfOk result (λ r. self.old.keys.keys ++ keys_of r.fresh.items
            ≡ insert_all E.Key.eq self.old.keys.keys (all_on (shelves_of worked))) }
        ensures placed { IfOk result (λ r. r.fresh.items ≡ placed 0 (keys_of r.fresh.items)) }
        ensures positions { IfOk result (λ r. ArePlaced
            (self.old.keys.keys ++ keys_of r.fresh.items) worked r) }
        ensures rows { IfOk result (λ r. r.rows ≡ worked.rows) }
        ensures rules { OnOk result (self.new.rules ≡ self.old.rules) }
        ensures parts { IfOk result (λ r. AddsParts (key_parts E.Key.entries_of) self.old.keys.keys
            (self.old.keys.keys ++ keys_of r.fresh.items) worked.parts self.new.parts) }
        ensures within { OnOk result (self.new.parts ≤ limit) }
        ensures more { IfErr result (IfTooMany limit (HaveMore E.Key.eq (key_parts E.Key.entries_of)
            self.old.keys.keys (all_on (shelves_of worked)) worked.parts limit)) }
    {
        let Worked {
            shelves,
            rows,
            parts,
        } = worked;
        self.parts = parts;
        let Ok(mut fresh) = Vec::with_capacity(alloc, count_keys(&shelves)) else {
            return Err(HuntError::OutOfMemory);
        };
        let positions = match find_shelves(
            alloc,
            lookup,
            &self.keys,
            &mut fresh,
            &mut self.parts,
            limit,
            shelves,
        ) {
            Ok(positions) => positions,
            Err(error) => return Err(error),
        };
        Ok(TakenIn {
            fresh,
            positions,
            rows,
        })
    }

    /// Puts the keys from `first` on in ascending order, and settles the rows. Err if memory is
    /// refused; nothing is then promised of the state.
    pub fn settle(&mut self, alloc: Global, problem: &E, first: u32) -> Result<(), AllocError>
        requires first { first ≤ length self.old.keys.keys }
        requires few { length self.old.keys.keys < 2 ^ 32 }
        requires distinct { Distinct self.old.keys.keys }
        requires below { Each (IsRowBelow E.reading.places first (length self.old.keys.keys))
            (map numbered self.old.rows.items) }
        ensures rows { OnOk result (self.new.rows.items ≡ []) }
        ensures parts { OnOk result (self.new.parts ≡ self.old.parts) }
        ensures settled { OnOk result (AreSettled E.Key.cmp E.reading first
            (take first self.old.keys.keys) (drop first self.old.keys.keys)
            (map numbered self.old.rows.items) self.old self.new) }
    {
        let moved = sort_new(alloc, &mut self.keys, first as usize)?;
        settle_rows(alloc, problem, &self.rows, first, &moved, &mut self.rules)?;
        self.rows = Vec::new(alloc);
        Ok(())
    }
}

/// The keys of a set, in its order. Err if memory is refused; the keys are then gone.
pub(crate) fn list_keys<K: TableKey + Drop>(
    alloc: Global,
    keys: IndexSet<K>,
) -> Result<Vec<K>, AllocError>
    ensures { IfOk result (λ r. r.items ≡ keys.keys) }
{
    Vec::from_iter(alloc, keys)
}

impl<E: Expand> HuntState<E> {
    /// Takes in what a round made. `TooMany` only if the reached set passes the limit,
    /// `OutOfMemory` if memory is refused. A look-up is needless only if the order has none of the
    /// keys of the shelves.
    pub fn take_round(
        &mut self,
        alloc: Global,
        problem: &E,
        limit: u64,
        first: u32,
        lookup: Lookup,
        worked: Worked<E::Key, E::Over>,
    ) -> Result<TakenIn<E::Key, E::Over>, HuntError>
        requires limit { limit ≤ most_parts }
        requires between { IsBetweenRounds (E.hunted problem.now) (E.admits problem.now) E.reading
            first limit self.old }
        requires worked { WorksRound (E.hunted problem.now) E.reading E.Key.shelf_of
            self.old.keys.keys first self.old.parts limit worked }
        requires lacked { IsNeedless lookup → LacksAll self.old.keys.keys worked }
        ensures order { OnOk result (self.new.keys.keys ≡ self.old.keys.keys) }
        ensures placed { IfOk result (λ r. r.fresh.items ≡ placed 0 (keys_of r.fresh.items)) }
        ensures on { IfOk result HavePositions }
        ensures within { IfOk result (λ r. IsExpanded (E.hunted problem.now) (E.admits problem.now)
            E.reading self.old.keys.keys first limit
            (self.old.keys.keys ++ keys_of r.fresh.items) (rows_in r) self.new) }
        ensures more { IfErr result (IfTooMany limit (IsBeyond (E.hunted problem.now) limit)) }
    {
        let _problem = problem;
        let _first = first;
        match self.take_in(alloc, limit, lookup, worked) {
            Ok(taken) => Ok(taken),
            Err(error) => Err(error),
        }
    }
}

impl<E: Expand> HuntState<E> {
    /// The state with the seeds in ascending order and their edges. `TooMany` only if the reached
    /// set passes the limit, `OutOfMemory` if memory is refused.
    pub fn begin(alloc: Global, problem: &E, limit: u64) -> Result<HuntState<E>, HuntError>
        requires limit { limit ≤ most_parts }
        ensures between { IfOk result (λ h. IsBetweenRounds (E.hunted problem.now)
            (E.admits problem.now) E.reading 0 limit h × (h.rows.items ≡ [])) }
        ensures more { IfErr result (IfTooMany limit (IsBeyond (E.hunted problem.now) limit)) }
    {
        let edges = match problem.seeds(alloc, limit) {
            Ok(edges) => edges,
            Err(ExpandError::More) => return Err(HuntError::TooMany { limit }),
            Err(ExpandError::OutOfMemory) => return Err(HuntError::OutOfMemory),
        };
        let mut state = HuntState {
            keys: IndexSet::new(alloc),
            rules: Vec::new(alloc),
            rows: Vec::new(alloc),
            parts: 0,
        };
        match state.add_edges(alloc, limit, edges) {
            Ok(()) => {}
            Err(error) => return Err(error),
        }
        let Ok(()) = state.settle(alloc, problem, 0) else {
            return Err(HuntError::OutOfMemory);
        };
        Ok(state)
    }
}
