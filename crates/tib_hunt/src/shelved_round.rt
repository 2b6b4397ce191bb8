//! A round on its core. Its items are drawn and expanded, their ends are numbered on shelves, and
//! each item is filed with its row.

ghost use Rattle.std.specs.Prelude.{◌≡◌, ◌-◌, ◌≤◌, List, length, IfOk, IfErr, OnOk};
ghost use Rattle.tib_lex.specs.Lists.{Has, Each, total};
ghost use Rattle.tib_expand.specs.Expanded.{IsEndAt};
ghost use Rattle.tib_hunt.specs.Held.{IsBetween};
ghost use Rattle.tib_expand.specs.Keys.{key_parts};
ghost use Rattle.tib_expand.specs.Reached.{IfTooMany, IsBeyond, most_parts};
ghost use Rattle.tib_hunt.specs.RoundLaw.{IsKept};
ghost use Rattle.tib_hunt.specs.RoundModel.{IsItem};
ghost use Rattle.tib_hunt.specs.Shelved.{all_on, IsTooMuch};
ghost use Rattle.tib_hunt.specs.States.{WorksItem, WorksRound, IsRunOverAll};

use crate::lookups::Ruled;
use crate::round::Round;
use crate::round_of::RoundOf;
use crate::shelving::{draw_item, file_item, shelve_ends};
use crate::terms::Terms;
use std::alloc::Global;
use tib_expand::{Expand, ExpandError, Gate, HuntError, TableKey};
use tib_workers::Row;

/// What a round makes: the keys on its shelves, the rows of its items, and the parts of all that
/// was there before and of these rows.
#[derive(Drop)]
pub(crate) struct Worked<K, R> {
    pub shelves: Vec<Vec<K>>,
    pub rows: Vec<Row<Ruled<R>>>,
    pub parts: u64,
}

// The rows so far, the parts of all that was there before and of these rows, and the parts of the
// keys on the shelves.
#[derive(Drop)]
struct Work<R> {
    rows: Vec<Row<Ruled<R>>>,
    parts: u64,
    seen: u64,
}

// Expands an item that was drawn, numbers its ends on their shelves, and files it. `TooMany` if its
// edges, or the keys on the shelves, pass the limit.
fn work_item<'a, 'b, E: Expand, G: Gate>(
    alloc: Global,
    terms: &Terms<'_, E, G>,
    of: &'a RoundOf<'b, E>,
    round: &mut Round<&'a RoundOf<'b, E>>,
    work: &mut Work<E::Over>,
    item: u32,
) -> Result<(), HuntError>
    requires about { round.old.about ≡ (of.now.problem.now, of.now.order.now, of.now.first) }
    requires drawn { IsItem of.now.first round.old.core.drawn item }
    requires once { Has round.old.core.filed item → ⊥ }
    requires kept { IsKept E.Key.shelf_of of.now.first (length of.now.order.now - of.now.first)
        (IsEndAt (E.hunted of.now.problem.now) of.now.order.now) round.old.core }
    requires admitted { Each (E.admits of.now.problem.now) of.now.order.now }
    requires indexed { E.indexes of.now.problem.now of.now.order.now terms.now.index.now }
    requires within { work.old.parts ≤ terms.now.limit }
    requires counted { work.old.seen ≡ total (key_parts E.Key.entries_of)
        (all_on round.old.core.shelves) }
    requires few { work.old.seen ≤ terms.now.limit }
    requires limit { terms.now.limit ≤ most_parts }
    ensures about { round.new.about ≡ round.old.about }
    ensures worked { OnOk result (WorksItem (E.hunted of.now.problem.now) E.reading E.Key.eq
        E.Key.shelf_of of.now.order.now item terms.now.limit round.old.core work.old round.new.core
        work.new) }
    ensures counted { OnOk result (work.new.seen ≡ total (key_parts E.Key.entries_of)
        (all_on round.new.core.shelves)) }
    ensures few { OnOk result (work.new.seen ≤ terms.now.limit) }
    ensures more { IfErr result (IfTooMany terms.now.limit (IsTooMuch (E.hunted of.now.problem.now)
        E.reading E.Key.eq E.Key.shelf_of of.now.order.now item round.old.core work.old.parts
        terms.now.limit)) }
{
    let limit = terms.limit;
    terms.gate.pass(0, item);
    let left = limit - work.parts;
    let edges = match of.problem.expand(alloc, of.order, terms.index, item, left) {
        Ok(edges) => edges,
        Err(ExpandError::More) => return Err(HuntError::TooMany { limit }),
        Err(ExpandError::OutOfMemory) => return Err(HuntError::OutOfMemory),
    };
    let ends = match shelve_ends(alloc, round, &mut work.seen, limit, edges.ends) {
        Ok(ends) => ends,
        Err(error) => return Err(error),
    };
    work.parts += edges.parts;
    let row = Row {
        item,
        rules: Ruled {
            rules: edges.rules,
            at: None,
        },
        ends,
        parts: edges.parts,
    };
    let Ok(()) = work.rows.push(row) else {
        return Err(HuntError::OutOfMemory);
    };
    let Ok(()) = file_item(round, item) else {
        return Err(HuntError::OutOfMemory);
    };
    Ok(())
}

/// Works one round: draws the positions of the order from `first` on, expands them, numbers their
/// ends on shelves, and files them. `TooMany` only if the reached set passes the limit,
/// `OutOfMemory` if memory is refused. What it made is what a complete run of the core's events
/// leaves in which all ends are numbered (`run`).
pub(crate) fn work_round<E: Expand, G: Gate>(
    alloc: Global,
    terms: &Terms<'_, E, G>,
    order: &[E::Key],
    first: u32,
    parts: u64,
) -> Result<Worked<E::Key, E::Over>, HuntError>
    requires limit { terms.now.limit ≤ most_parts }
    requires between { (rules : List E.Rule) × IsBetween (E.hunted terms.now.problem.now)
        (E.admits terms.now.problem.now) E.reading first order.now rules parts terms.now.limit }
    requires indexed { E.indexes terms.now.problem.now order.now terms.now.index.now }
    ensures worked { IfOk result (WorksRound (E.hunted terms.now.problem.now) E.reading
        E.Key.shelf_of order.now first parts terms.now.limit) }
    ensures run { IfOk result (IsRunOverAll (E.hunted terms.now.problem.now) E.Key.eq E.Key.shelf_of
        order.now first) }
    ensures more { IfErr result (IfTooMany terms.now.limit (IsBeyond (E.hunted
        terms.now.problem.now) terms.now.limit)) }
{
    let of = RoundOf {
        problem: terms.problem,
        order,
        first,
    };
    let Ok(mut round) = Round::open(alloc, &of) else {
        return Err(HuntError::OutOfMemory);
    };
    let Ok(rows) = Vec::with_capacity(alloc, order.len() - first as usize) else {
        return Err(HuntError::OutOfMemory);
    };
    let mut work = Work {
        rows,
        parts,
        seen: 0,
    };
    for _ in first..order.len() as u32 {
        let Ok(drawn) = draw_item(&mut round) else {
            return Err(HuntError::OutOfMemory);
        };
        let Some(item) = drawn else { unreachable!() };
        match work_item(alloc, terms, &of, &mut round, &mut work, item) {
            Ok(()) => {}
            Err(error) => return Err(error),
        }
    }
    let Ok(shelves) = round.close(alloc) else {
        return Err(HuntError::OutOfMemory);
    };
    let Work {
        rows,
        parts,
        seen: _,
    } = work;
    Ok(Worked {
        shelves,
        rows,
        parts,
    })
}
