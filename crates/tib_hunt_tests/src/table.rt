// Tables that one thread or several fill.
ghost use Rattle.std.specs.Prelude.{◌≡◌, ◌≤◌, ◌<◌};

use crate::keys::{Pair, pair_of};
use std::alloc::Global;
use std::sync::Wait;
use std::thread::{Threads, join};
use tib_table::{Number, Problem, Seats, Shelf, Shelves, Table};

/// A problem that may hold the pairs whose left number is at most this.
#[derive(Clone, Copy, Drop)]
struct AtMost {
    most: u64,
}

impl Problem for AtMost {
    ghost use Rattle.std.specs.Prelude.{◌≤◌};

    type Key = Pair;

    type Data = u64;

    ghost about = { λ p. p.most };

    ghost may_hold = { λ most pair. pair.left ≤ most };
}

// Whether the key of a number has this place.
fn has_place(shelf: &mut Shelf<AtMost>, left: u64, place: u64) -> bool
    requires { left ≤ shelf.old.about }
    ensures { shelf.new.about ≡ shelf.old.about }
{
    match shelf.number(pair_of(left)) {
        Ok(found) => found == place,
        Err(_) => false,
    }
}

// Whether the keys of 7, 3 and 7 again have the places 0, 1 and 0, and there are two keys then.
fn places_three(shelf: &mut Shelf<AtMost>) -> bool
    requires { shelf.old.about ≡ 9 }
{
    let seven = has_place(shelf, 7, 0);
    let three = has_place(shelf, 3, 1);
    let again = has_place(shelf, 7, 0);
    seven && three && again && shelf.len() == 2
}

// Whether the last keys are those of 3 and of 7, and there is none then.
fn takes_both(shelf: &mut Shelf<AtMost>) -> bool {
    let last = shelf.take_last();
    let next = shelf.take_last();
    let rest = shelf.take_last();
    last == Some(pair_of(3)) && next == Some(pair_of(7)) && rest.is_none()
}

// Whether a new shelf places three keys, and gives two of them back.
fn numbers_in_order(alloc: Global) -> bool {
    let mut shelf = Shelf::open(alloc, AtMost { most: 9 });
    places_three(&mut shelf) && takes_both(&mut shelf)
}

#[test]
fn a_shelf_numbers_in_the_order_of_first_sight(rt: HostRuntime) {
    assert!(rt; numbers_in_order(rt.alloc()));
}

// The number of a key; none where memory was refused.
fn number_once<R: Wait>(
    rt: &R,
    table: &Table<AtMost>,
    seats: &mut Seats<AtMost>,
    key: Pair,
) -> Option<Number>
    requires table { seats.old.table ≡ table.now }
    requires most { key.left ≤ table.now.about }
    ensures { seats.new.table ≡ table.now }
{
    table.number(rt, seats, key).ok()
}

// Whether there is a number that names this key, which is the only one of its shelf, and then none.
fn names_only(shelves: &mut Shelves<AtMost>, number: Option<Number>, key: Pair) -> bool {
    let Some(number) = number else {
        return false;
    };
    let named = shelves.key(number) == Some(&key);
    let last = shelves.take_last(number.shelf) == Some(key);
    let only = shelves.take_last(number.shelf).is_none();
    named && last && only && shelves.key(number).is_none()
}

/// A key.
const KEY: Pair = Pair { left: 1, right: 2 };

// The number that the key has twice, if both are the same.
fn number_twice<R: Wait>(rt: &R, table: &Table<AtMost>, seats: &mut Seats<AtMost>) -> Option<Number>
    requires table { seats.old.table ≡ table.now }
    requires most { 1 ≤ table.now.about }
    ensures { seats.new.table ≡ table.now }
{
    let first = number_once(rt, table, seats, KEY);
    let second = number_once(rt, table, seats, KEY);
    if first == second { first } else { None }
}

// Whether that number names the key in the shelves of the table.
fn names_the_key<R: Wait>(rt: &R, table: Table<AtMost>, seats: Seats<AtMost>) -> bool
    requires table { seats.table ≡ table }
    requires most { 1 ≤ table.about }
{
    let mut seats = seats;
    let number = number_twice(rt, &table, &mut seats);
    let mut shelves = table.close(rt, seats);
    names_only(&mut shelves, number, KEY)
}

// Whether a key has one number in a new table.
fn has_one_number<R: Wait>(rt: &R, alloc: Global) -> bool {
    match Table::open(alloc, AtMost { most: 1 }) {
        Ok((table, seats)) => names_the_key(rt, table, seats),
        Err(_) => false,
    }
}

#[test]
fn a_key_has_one_number(rt: HostRuntime) {
    assert!(rt; has_one_number(&rt, rt.alloc()));
}

/// How many keys each of two threads numbers.
const KEYS: u64 = 1000;

/// More keys than numbers of 16 bits.
const MANY: u64 = 70_000;

/// The numbers that a thread got: fewer than it was to get where memory was refused.
#[derive(Drop)]
struct Numbered {
    seats: Seats<AtMost>,
    numbers: Vec<Number>,
}

// Whether a key gets a number, which is put after the others.
fn number_next<R: Wait>(
    rt: &R,
    table: &Table<AtMost>,
    seats: &mut Seats<AtMost>,
    key: Pair,
    numbers: &mut Vec<Number>,
) -> bool
    requires table { seats.old.table ≡ table.now }
    requires most { key.left ≤ table.now.about }
    ensures { seats.new.table ≡ table.now }
{
    match number_once(rt, table, seats, key) {
        Some(number) => numbers.push(number).is_ok(),
        None => false,
    }
}

// Numbers a count of pairs from the first to the last, or the other way round.
fn number_all<R: Wait>(
    rt: &R,
    alloc: Global,
    table: &Table<AtMost>,
    seats: Seats<AtMost>,
    keys: u64,
    backwards: bool,
) -> Numbered
    requires table { seats.table ≡ table.now }
    requires most { keys ≤ table.now.about }
    ensures { result.seats.table ≡ table.now }
{
    let mut seats = seats;
    let mut numbers = Vec::new(alloc);
    for at in 0..keys {
        let left = if backwards { keys - 1 - at } else { at };
        if !number_next(rt, table, &mut seats, pair_of(left), &mut numbers) {
            break;
        }
    }
    Numbered { seats, numbers }
}

fn number_in_two_threads<R: Threads + Wait + Sync>(
    rt: &R,
    alloc: Global,
    table: &Table<AtMost>,
    first: Seats<AtMost>,
    second: Seats<AtMost>,
) -> (Numbered, Numbered)
    requires first { first.table ≡ table.now }
    requires second { second.table ≡ table.now }
    requires most { 1000 ≤ table.now.about }
    ensures first { result.0.seats.table ≡ table.now }
    ensures second { result.1.seats.table ≡ table.now }
{
    join(
        rt,
        move || -> Numbered
            requires { (first.table ≡ table.now) × (1000 ≤ table.now.about) }
            ensures { result.seats.table ≡ table.entry.now }
        { number_all(rt, alloc, table, first, KEYS, false) },
        move || -> Numbered
            requires { (second.table ≡ table.now) × (1000 ≤ table.now.about) }
            ensures { result.seats.table ≡ table.entry.now }
        { number_all(rt, alloc, table, second, KEYS, true) },
    )
}

// Whether each number names the pair for which it was given.
fn are_named(shelves: &Shelves<AtMost>, numbers: &[Number], backwards: bool) -> bool {
    for at in 0..numbers.len() {
        let left = if backwards {
            (KEYS - 1).wrapping_sub(at as u64)
        } else {
            at as u64
        };
        if shelves.key(numbers[at]) != Some(&pair_of(left)) {
            return false;
        }
    }
    true
}

// How many keys the shelves hold together, where each holds at most `most`.
fn count_keys(shelves: &mut Shelves<AtMost>, most: u64) -> u64 {
    let mut count = 0u64;
    for shelf in 0..16 {
        for _ in 0..most {
            if shelves.take_last(shelf).is_some() {
                count = count.wrapping_add(1);
            }
        }
    }
    count
}

// Whether both threads got all numbers, these name their pairs, and the shelves hold each pair
// once.
fn are_named_once(shelves: &mut Shelves<AtMost>, first: &[Number], second: &[Number]) -> bool {
    if first.len() as u64 != KEYS || second.len() as u64 != KEYS {
        return false;
    }
    are_named(shelves, first, false)
        && are_named(shelves, second, true)
        && count_keys(shelves, 2 * KEYS) == KEYS
}

// The same for a table, which is closed with the seats of both threads.
fn close_both<R: Wait>(rt: &R, table: Table<AtMost>, first: Numbered, second: Numbered) -> bool
    requires first { first.seats.table ≡ table }
    requires second { second.seats.table ≡ table }
{
    let Numbered { mut seats, numbers } = first;
    table.join(&mut seats, second.seats);
    let mut shelves = table.close(rt, seats);
    are_named_once(&mut shelves, &numbers, &second.numbers)
}

// The same for a table that two threads fill.
fn two_threads_number<R: Threads + Wait + Sync>(
    rt: &R,
    alloc: Global,
    table: Table<AtMost>,
    first: Seats<AtMost>,
    second: Seats<AtMost>,
) -> bool
    requires first { first.table ≡ table }
    requires second { second.table ≡ table }
    requires most { 1000 ≤ table.about }
{
    let (first, second) = number_in_two_threads(rt, alloc, &table, first, second);
    close_both(rt, table, first, second)
}

// The same for a new table.
fn number_together<R: Threads + Wait + Sync>(rt: &R, alloc: Global) -> bool {
    let Ok((table, mut seats)) = Table::open(alloc, AtMost { most: KEYS }) else {
        return false;
    };
    match table.split(alloc, &mut seats) {
        Ok(second) => two_threads_number(rt, alloc, table, seats, second),
        Err(_) => false,
    }
}

#[test]
fn two_threads_give_each_key_one_number(rt: HostRuntime) {
    assert!(rt; number_together(&rt, rt.alloc()));
}

// Whether all numbers are there and name their pairs, and the shelves hold as many keys.
fn are_many(shelves: &mut Shelves<AtMost>, numbers: &[Number]) -> bool {
    numbers.len() as u64 == MANY
        && are_named(shelves, numbers, false)
        && count_keys(shelves, MANY) == MANY
}

// The same for a table that one thread fills.
fn one_thread_numbers<R: Wait>(
    rt: &R,
    alloc: Global,
    table: Table<AtMost>,
    seats: Seats<AtMost>,
) -> bool
    requires table { seats.table ≡ table }
    requires most { 70000 ≤ table.about }
{
    let Numbered { seats, numbers } = number_all(rt, alloc, &table, seats, MANY, false);
    let mut shelves = table.close(rt, seats);
    are_many(&mut shelves, &numbers)
}

// The same for a new table.
fn number_many<R: Wait>(rt: &R, alloc: Global) -> bool {
    match Table::open(alloc, AtMost { most: MANY }) {
        Ok((table, seats)) => one_thread_numbers(rt, alloc, table, seats),
        Err(_) => false,
    }
}

#[test]
fn a_table_numbers_more_keys_than_65536(rt: HostRuntime) {
    assert!(rt; number_many(&rt, rt.alloc()));
}
