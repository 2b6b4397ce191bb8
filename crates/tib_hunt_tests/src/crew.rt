//! The claim counter drawn from by one and by two threads, and small tasks by several workers.

ghost use Rattle.std.specs.Prelude.{◌≡◌, ◌≤◌, ◌<◌};
ghost use Rattle.tib_lex.specs.Limits.{most_parts};

use crate::keys::{Pair, pair_of};
use std::alloc::Global;
use std::sync::Wait;
use std::sync::atomic::{AtomicU64, Ordering};
use std::thread::{Threads, join};
use tib_table::Problem;
use tib_workers::{Gathered, Items, Performed, Seat, Task, Unperformed, perform_all};

/// How often a worker looks for another before it gives up.
const TURNS: u32 = 200_000_000;

/// How many items were drawn, how often one was performed, and how many workers gave up. If
/// `waits`, a worker that drew an item waits until the other item of its pair is drawn: 0 and 1 are
/// a pair, 2 and 3 are one, and so on.
#[derive(Drop)]
struct Tally {
    waits: bool,
    drawn: AtomicU64,
    performed: AtomicU64,
    gave_up: AtomicU64,
}

impl Tally {
    // Nothing is drawn.
    fn new(waits: bool) -> Tally {
        Tally {
            waits,
            drawn: AtomicU64::new(0),
            performed: AtomicU64::new(0),
            gave_up: AtomicU64::new(0),
        }
    }

    // Counts an item that is drawn, and waits for the other of its pair.
    fn draw(&self, item: u32) {
        self.drawn.fetch_add(1, Ordering::SeqCst);
        if self.waits && !self.has_drawn(item as u64 / 2 * 2 + 2) {
            self.gave_up.fetch_add(1, Ordering::SeqCst);
        }
    }

    // Whether this many items are drawn within a number of looks. After a worker gave up, none
    // waits.
    fn has_drawn(&self, count: u64) -> bool {
        for _ in 0..TURNS {
            if self.drawn.load(Ordering::SeqCst) >= count {
                return true;
            }
            if self.gave_up.load(Ordering::SeqCst) > 0 {
                return false;
            }
        }
        false
    }

    // Whether this many items were drawn, each was performed once, and no worker gave up.
    fn is_once_each(&self, count: u64) -> bool {
        if self.drawn.load(Ordering::SeqCst) != count {
            return false;
        }
        self.performed.load(Ordering::SeqCst) == count && self.gave_up.load(Ordering::SeqCst) == 0
    }
}

/// A number of items, each of which ends at two keys and has two parts.
#[derive(Clone, Copy, Drop)]
struct Doubles<'a> {
    count: u32,
    tally: &'a Tally,
}

impl<'a> Problem for Doubles<'a> {
    type Key = Pair;

    type Data = u32;

    ghost about = { λ d. d.count };

    ghost may_hold = { λ _ _. Unit {0} };
}

impl<'a> Task for Doubles<'a> {
    type Rules = u32;

    ghost count_of = { λ count. count };

    ghost gives = { λ _ _ _ _ _. Unit {0} };

    ghost exceeds = { λ _ _ _. Unit {0} };

    ghost is_ready = { λ _. Unit {0} };

    fn count(&self) -> u32 {
        self.count
    }

    fn pass(&self, worker: u32, item: u32) {
        let _worker = worker;
        self.tally.draw(item);
    }

    fn perform(
        &self,
        alloc: Global,
        item: u32,
        budget: u64,
    ) -> Result<Performed<Pair, u32>, Unperformed> {
        self.tally.performed.fetch_add(1, Ordering::SeqCst);
        if budget < 2 {
            return Err(Unperformed::More);
        }
        let mut ends = Vec::new(alloc);
        for number in [item / 2, item / 3] {
            let Ok(()) = ends.push(pair_of(number as u64)) else {
                return Err(Unperformed::OutOfMemory);
            };
        }
        Ok(Performed {
            ends,
            rules: item,
            parts: 2,
        })
    }

    ghost holds_ends = { λ _ _ _ _ _ _ _ _ _ _. tt };
}

fn are_in_order(gathered: &Gathered<Doubles>, count: u32) -> bool {
    if gathered.rows.len() != count as usize {
        return false;
    }
    for item in 0..gathered.rows.len() {
        let row = &gathered.rows[item];
        if row.item as usize != item || row.ends.len() != 2 {
            return false;
        }
        let half = pair_of((row.item / 2) as u64);
        if gathered.shelves.key(row.ends[0]) != Some(&half) {
            return false;
        }
    }
    true
}

// Whether items are performed by a number of workers and within a number of parts, and give their
// rows in order.
fn performs<R: Threads + Wait + Sync>(
    rt: &R,
    alloc: Global,
    tally: &Tally,
    count: u32,
    workers: u32,
    parts: u64,
) -> Result<bool, Unperformed>
    requires workers { (1 ≤ workers) × (workers ≤ 16) }
    requires parts { parts ≤ most_parts }
{
    match perform_all(rt, alloc, Doubles { count, tally }, workers, parts) {
        Ok(gathered) => Ok(are_in_order(&gathered, count)),
        Err(error) => Err(error),
    }
}

#[test]
fn two_items_by_two_workers(rt: HostRuntime) {
    let tally = Tally::new(false);
    assert!(rt; performs(&rt, rt.alloc(), &tally, 2, 2, 4) == Ok(true));
}

#[test]
fn a_thousand_items_by_sixteen_workers(rt: HostRuntime) {
    let tally = Tally::new(false);
    assert!(rt; performs(&rt, rt.alloc(), &tally, 1000, 16, 2000) == Ok(true));
}

#[test]
fn one_part_too_few(rt: HostRuntime) {
    let tally = Tally::new(false);
    assert!(rt; performs(&rt, rt.alloc(), &tally, 1000, 16, 1999) == Err(Unperformed::More));
}

// Whether items are performed by a number of workers, each once, and give their rows in order.
fn performs_once<R: Threads + Wait + Sync>(
    rt: &R,
    alloc: Global,
    tally: &Tally,
    count: u32,
    workers: u32,
    parts: u64,
) -> bool
    requires workers { (1 ≤ workers) × (workers ≤ 16) }
    requires parts { parts ≤ most_parts }
{
    performs(rt, alloc, tally, count, workers, parts) == Ok(true)
        && tally.is_once_each(count as u64)
}

// The share of each worker is enough for all items, so the caller performs none.
#[test]
fn sixteen_workers_perform_each_item_once(rt: HostRuntime) {
    let tally = Tally::new(false);
    assert!(rt; performs_once(&rt, rt.alloc(), &tally, 1000, 16, 32_000));
}

#[test]
fn two_workers_draw_one_item_of_each_pair(rt: HostRuntime) {
    let tally = Tally::new(true);
    assert!(rt; performs_once(&rt, rt.alloc(), &tally, 64, 2, 256));
}

// What one seat draws, until there is nothing more, three items at most.
fn draw_three(items: &Items, seat: &mut Seat) -> [Option<u64>; 3]
    requires counter { seat.old.counter ≡ items.now }
    requires going { seat.old.nones ≡ 0 }
{
    let Some(first) = items.draw(seat) else {
        return [None; 3];
    };
    let Some(second) = items.draw(seat) else {
        return [Some(first), None, None];
    };
    [Some(first), Some(second), items.draw(seat)]
}

// Whether one seat draws the two items and then none.
fn draws_both(alloc: Global) -> bool {
    match Items::open(alloc, 2) {
        Ok((items, mut seat)) => draw_three(&items, &mut seat) == [Some(0), Some(1), None],
        Err(_) => false,
    }
}

#[test]
fn two_items_are_drawn_and_then_none(rt: HostRuntime) {
    assert!(rt; draws_both(rt.alloc()));
}

// What two seats draw, one item each, and what one of them draws then, which has joined the other.
fn draw_by_two(items: &Items, seat: &mut Seat) -> Option<(u64, u64, Option<u64>)>
    requires counter { seat.old.counter ≡ items.now }
    requires shares { 1 < seat.old.shares }
    requires going { seat.old.nones ≡ 0 }
{
    let mut other = items.split(seat);
    let first = items.draw(&mut other)?;
    let second = items.draw(seat)?;
    items.join(seat, other);
    Some((first, second, items.draw(seat)))
}

// Whether two items are counted, and two seats draw one each and then none.
fn draws_by_two(items: &Items, seat: &mut Seat) -> bool
    requires counter { seat.old.counter ≡ items.now }
    requires shares { 1 < seat.old.shares }
    requires going { seat.old.nones ≡ 0 }
{
    items.count() == 2 && draw_by_two(items, seat) == Some((0, 1, None))
}

// The same for a new counter of two items.
fn two_draw(alloc: Global) -> bool {
    match Items::open(alloc, 2) {
        Ok((items, mut seat)) => draws_by_two(&items, &mut seat),
        Err(_) => false,
    }
}

#[test]
fn two_seats_draw_from_one_counter(rt: HostRuntime) {
    assert!(rt; two_draw(rt.alloc()));
}

#[derive(Drop)]
struct Draw {
    seat: Seat,
    item: Option<u64>,
}

fn draw_once(items: &Items, seat: Seat) -> Draw
    requires counter { seat.counter ≡ items.now }
    requires going { seat.nones ≡ 0 }
    ensures { result.seat.counter ≡ items.now }
{
    let mut seat = seat;
    let item = items.draw(&mut seat);
    Draw { seat, item }
}

fn draw_in_two_threads<R: Threads>(rt: &R, items: &Items, first: Seat, second: Seat) -> (Draw, Draw)
    requires first { (first.counter ≡ items.now) × (first.nones ≡ 0) }
    requires second { (second.counter ≡ items.now) × (second.nones ≡ 0) }
    ensures first { result.0.seat.counter ≡ items.now }
    ensures second { result.1.seat.counter ≡ items.now }
{
    join(
        rt,
        move || -> Draw
            requires { (first.counter ≡ items.now) × (first.nones ≡ 0) }
            ensures { result.seat.counter ≡ items.entry.now }
        { draw_once(items, first) },
        move || -> Draw
            requires { (second.counter ≡ items.now) × (second.nones ≡ 0) }
            ensures { result.seat.counter ≡ items.entry.now }
        { draw_once(items, second) },
    )
}

// Whether these are the items 0 and 1, in any order.
fn are_both(one: Option<u64>, other: Option<u64>) -> bool {
    let in_order = one == Some(0) && other == Some(1);
    let the_other_way = one == Some(1) && other == Some(0);
    in_order || the_other_way
}

// Whether two draws gave both items, whose seats are joined.
fn gave_both(items: &Items, first: Draw, second: Draw) -> bool
    requires first { first.seat.counter ≡ items.now }
    requires second { second.seat.counter ≡ items.now }
{
    let Draw { mut seat, item } = first;
    items.join(&mut seat, second.seat);
    are_both(item, second.item)
}

// Whether two threads draw both items.
fn threads_draw_both<R: Threads>(rt: &R, items: &Items, seat: Seat) -> bool
    requires counter { seat.counter ≡ items.now }
    requires shares { 1 < seat.shares }
    requires going { seat.nones ≡ 0 }
{
    let mut first = seat;
    let second = items.split(&mut first);
    let (first, second) = draw_in_two_threads(rt, items, first, second);
    gave_both(items, first, second)
}

// The same for a new counter of two items.
fn two_threads_draw<R: Threads>(rt: &R, alloc: Global) -> bool {
    match Items::open(alloc, 2) {
        Ok((items, seat)) => threads_draw_both(rt, &items, seat),
        Err(_) => false,
    }
}

#[test]
fn two_threads_draw_different_items(rt: HostRuntime) {
    assert!(rt; two_threads_draw(&rt, rt.alloc()));
}
