// Turn locks that one thread or several share.
ghost use Rattle.std.specs.Prelude.{◌≡◌, ◌≤◌, false};
ghost use Rattle.tib_turn.specs.Prefixes.{IsPrefix};

use std::alloc::Global;
use std::sync::Wait;
use std::thread::{Threads, join};
use tib_turn::{Grows, Pass, TurnLock};

#[derive(Drop)]
struct Numbers {
    list: Vec<u64>,
}

impl Grows for Numbers {
    type Entry = u64;

    ghost log = { λ n. n.list.items };
}

// Whether memory was found for one more number.
fn append(numbers: &mut Numbers, n: u64) -> bool
    ensures { IsPrefix numbers.old.list.items numbers.new.list.items }
{
    numbers.list.push(n).is_ok()
}

fn append_in_turn<R: Wait>(
    rt: &R,
    lock: &TurnLock<Numbers>,
    pass: &mut Pass<Numbers>,
    n: u64,
) -> bool
    requires lock { pass.old.lock ≡ lock.now }
    requires outside { pass.old.inside ≡ false }
    ensures lock { pass.new.lock ≡ lock.now }
    ensures outside { pass.new.inside ≡ false }
{
    let mut turn = lock.enter(rt, pass);
    let appended = append(&mut turn.value, n);
    lock.leave(turn, pass);
    appended
}

// Whether just these numbers are there, in order.
fn has_pushed(numbers: &Numbers, wanted: &[u64]) -> bool {
    numbers.list.as_slice() == wanted
}

// Appends 8 by one pass and 9 by another, which is joined again.
fn append_by_two<R: Wait>(rt: &R, lock: &TurnLock<Numbers>, first: &mut Pass<Numbers>) -> bool
    requires lock { first.old.lock ≡ lock.now }
    requires outside { first.old.inside ≡ false }
    ensures lock { first.new.lock ≡ lock.now }
    ensures outside { first.new.inside ≡ false }
{
    let eight = append_in_turn(rt, lock, first, 8);
    let mut second = lock.split(first);
    let nine = append_in_turn(rt, lock, &mut second, 9);
    lock.join(first, second);
    eight && nine
}

// Whether two passes append to the list of 7 in a lock.
fn two_append<R: Wait>(rt: &R, lock: TurnLock<Numbers>, first: Pass<Numbers>) -> bool
    requires lock { first.lock ≡ lock }
    requires outside { first.inside ≡ false }
{
    let mut first = first;
    let appended = append_by_two(rt, &lock, &mut first);
    let numbers = lock.close(rt, first);
    appended && has_pushed(&numbers, &[7, 8, 9])
}

// Whether two passes append in turn to a new list.
fn two_push<R: Wait>(rt: &R, alloc: Global) -> bool {
    let Ok(list) = Vec::from_array(alloc, [7]) else {
        return false;
    };
    match TurnLock::open(alloc, Numbers { list }) {
        Ok((lock, first)) => two_append(rt, lock, first),
        Err(_) => false,
    }
}

#[test]
fn two_passes_push_in_turn(rt: HostRuntime) {
    assert!(rt; two_push(&rt, rt.alloc()));
}

/// How many turns each of two threads takes.
const TURNS: u64 = 1000;

/// The pass of a thread, and whether it appended all its numbers.
#[derive(Drop)]
struct Held {
    pass: Pass<Numbers>,
    appended: bool,
}

// Appends the numbers from the first one on, each in a turn of its own.
fn append_all<R: Wait>(rt: &R, lock: &TurnLock<Numbers>, pass: Pass<Numbers>, first: u64) -> Held
    requires lock { pass.lock ≡ lock.now }
    requires outside { pass.inside ≡ false }
    requires first { first ≤ 1000 }
    ensures lock { result.pass.lock ≡ lock.now }
    ensures outside { result.pass.inside ≡ false }
{
    let mut pass = pass;
    let mut appended = true;
    for n in first..first + TURNS {
        if !append_in_turn(rt, lock, &mut pass, n) {
            appended = false;
        }
    }
    Held { pass, appended }
}

fn append_in_two_threads<R: Threads + Wait + Sync>(
    rt: &R,
    lock: &TurnLock<Numbers>,
    first: Pass<Numbers>,
    second: Pass<Numbers>,
) -> (Held, Held)
    requires first { (first.lock ≡ lock.now) × (first.inside ≡ false) }
    requires second { (second.lock ≡ lock.now) × (second.inside ≡ false) }
    ensures first { (result.0.pass.lock ≡ lock.now) × (result.0.pass.inside ≡ false) }
    ensures second { (result.1.pass.lock ≡ lock.now) × (result.1.pass.inside ≡ false) }
{
    join(
        rt,
        move || -> Held
            requires { (first.lock ≡ lock.now) × (first.inside ≡ false) }
            ensures { (result.pass.lock ≡ lock.entry.now) × (result.pass.inside ≡ false) }
        { append_all(rt, lock, first, 0) },
        move || -> Held
            requires { (second.lock ≡ lock.now) × (second.inside ≡ false) }
            ensures { (result.pass.lock ≡ lock.entry.now) × (result.pass.inside ≡ false) }
        { append_all(rt, lock, second, TURNS) },
    )
}

// Whether this many numbers are there, with this sum.
fn count_and_sum_are(numbers: &[u64], count: usize, sum: u64) -> bool {
    let mut found = 0u64;
    for &n in numbers {
        found = found.wrapping_add(n);
    }
    numbers.len() == count && found == sum
}

// One pass of two threads, and whether both appended all their numbers.
fn join_both(lock: &TurnLock<Numbers>, first: Held, second: Held) -> Held
    requires first { (first.pass.lock ≡ lock.now) × (first.pass.inside ≡ false) }
    requires second { (second.pass.lock ≡ lock.now) × (second.pass.inside ≡ false) }
    ensures lock { result.pass.lock ≡ lock.now }
    ensures outside { result.pass.inside ≡ false }
{
    let Held { mut pass, appended } = first;
    lock.join(&mut pass, second.pass);
    Held {
        pass,
        appended: appended && second.appended,
    }
}

// The same for a lock to which two threads append their numbers.
fn append_by_threads<R: Threads + Wait + Sync>(
    rt: &R,
    lock: &TurnLock<Numbers>,
    first: Pass<Numbers>,
) -> Held
    requires lock { first.lock ≡ lock.now }
    requires outside { first.inside ≡ false }
    ensures lock { result.pass.lock ≡ lock.now }
    ensures outside { result.pass.inside ≡ false }
{
    let mut first = first;
    let second = lock.split(&mut first);
    let (first, second) = append_in_two_threads(rt, lock, first, second);
    join_both(lock, first, second)
}

// Whether a lock holds all numbers of two threads, 0 to 1999, when it is closed.
fn two_threads_append<R: Threads + Wait + Sync>(
    rt: &R,
    lock: TurnLock<Numbers>,
    first: Pass<Numbers>,
) -> bool
    requires lock { first.lock ≡ lock }
    requires outside { first.inside ≡ false }
{
    let Held { pass, appended } = append_by_threads(rt, &lock, first);
    let numbers = lock.close(rt, pass);
    appended && count_and_sum_are(&numbers.list, 2000, 1_999_000)
}

// The same for a new lock.
fn two_threads_push<R: Threads + Wait + Sync>(rt: &R, alloc: Global) -> bool {
    let list = Vec::new(alloc);
    match TurnLock::open(alloc, Numbers { list }) {
        Ok((lock, first)) => two_threads_append(rt, lock, first),
        Err(_) => false,
    }
}

#[test]
fn two_threads_take_a_thousand_turns_each(rt: HostRuntime) {
    assert!(rt; two_threads_push(&rt, rt.alloc()));
}
