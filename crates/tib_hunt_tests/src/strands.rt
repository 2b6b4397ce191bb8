//! Hunts of more keys than 65,536, in many rounds of two items and in a few of many, with the
//! passes of their gate; and hunts that must agree: on shelves and on one list, by one worker and
//! by several.
ghost use Rattle.std.specs.Prelude.{◌≡◌, ◌<◌, ◌≤◌, ◌+◌, ◌*◌, [], ◌∷◌, IfOk, IfErr};
ghost use Rattle.tib_expand.specs.Reached.{most_parts};
ghost use Rattle.tib_expand.specs.declared.place.Place.{Place};
ghost use Rattle.std.proofs.Common.{◌∙◌, sym};

use crate::small::{Node, position_at};
use std::alloc::{AllocError, Global};
use std::sync::Wait;
use std::sync::atomic::{AtomicU64, Ordering};
use std::thread::Threads;
use tib_expand::{
    Edges, Expand, ExpandError, Found, Gate, HuntError, MOST_PARTS, Open, Place, TableKey,
};
use tib_hunt::{hunt, hunt_alone};

/// An operation whose seed is the node 0, and of which each position n below the length has one
/// edge, to the nodes `times` * n + 1 and `times` * n + 2. So the order is that of all numbers; at
/// `times` 1 each round but the first has two items, and at 2 it has twice as many as the one
/// before. Its index is the number of keys of the order.
#[derive(Drop)]
struct Strands {
    times: u32,
    length: u32,
    ghost few: { (times ≤ 2) × (length ≤ 100000) },
}

impl Expand for Strands {
    ghost use Rattle.std.specs.Prelude.{◌≡◌, ◌<◌, ◌+◌, ◌*◌, [], ◌∷◌, length, refl};
    ghost use Rattle.tib_expand.specs.Keys.{key_parts};
    ghost use Rattle.tib_expand.specs.Reached.{exploration};

    type Key = Node;

    type Over = (Place, Place);

    type Rule = (u32, u32);

    type Index = u32;

    type Origin = u32;

    type Edge = (Node, Node);

    ghost hunted = { λ p. exploration ⟦<Node as Ord>⟧.cmp (λ k. k ≡ record { number = 0 })
        (λ _ _. ⊥) (λ _ n o e. (n < p.length) × (o ≡ 0)
        × (e ≡ (record { number = p.times * n + 1 }, record { number = p.times * n + 2 }))) (λ e. e.0 ∷ e.1 ∷ [])
        (key_parts ⟦<Node as TableKey>⟧.entries_of) (λ _. 1) };

    ghost admits = { λ _ _. Unit {0} };

    ghost indexes = { λ _ order index. index ≡ length order };

    ghost reading = { record {
      places = λ r. r.0 ∷ r.1 ∷ [];
      positions = λ r. r.0 ∷ r.1 ∷ [];
      read_places = λ f r. (f r.0, f r.1);
      read_positions = λ f r. (f r.0, f r.1);
    } };

    fn seeds(
        &self,
        alloc: Global,
        budget: u64,
    ) -> Result<Edges<Node, (Place, Place)>, ExpandError> {
        let _budget = budget;
        let Ok(ends) = Vec::from_array(alloc, [Node { number: 0 }]) else {
            return Err(ExpandError::OutOfMemory);
        };
        Ok(Edges {
            ends,
            rules: Vec::new(alloc),
            parts: 0,
        })
    }

    fn begin_index(&self, _alloc: Global) -> Result<u32, AllocError> {
        Ok(0)
    }

    fn extend_index(
        &self,
        _alloc: Global,
        index: &mut u32,
        order: &[Node],
        from: u32,
    ) -> Result<(), AllocError> {
        let counted = *index == from;
        prove!(counted);
        *index += (order.len() - from as usize) as u32;
        Ok(())
    }

    fn expand(
        &self,
        alloc: Global,
        order: &[Node],
        index: &u32,
        n: u32,
        budget: u64,
    ) -> Result<Edges<Node, (Place, Place)>, ExpandError> {
        let counted = *index as usize == order.len();
        prove!(counted);
        if n >= self.length {
            return Ok(Edges {
                ends: Vec::new(alloc),
                rules: Vec::new(alloc),
                parts: 0,
            });
        }
        if budget == 0 {
            return Err(ExpandError::More);
        }
        match strand(alloc, self.times * n) {
            Ok(edges) => Ok(edges),
            Err(error) => Err(error),
        }
    }

    fn settle(
        &self,
        alloc: Global,
        rule: &(Place, Place),
        ends: &[u32],
    ) -> Result<(u32, u32), AllocError> {
        let _alloc = alloc;
        Ok((position_at(rule.0, ends), position_at(rule.1, ends)))
    }

    ghost lawful = { λ p. record {
      same_order = refl;
      same_parts = refl;
      reads_places = λ rule f g same. λ i. (same.0 i, same.1.0 i);
      reads_positions = λ rule f g same. λ i. (same.0 i, same.1.0 i);
      one_edge = λ order n o e f a b. a.2 ∙ sym b.2;
      one_seed_edge = λ o e f a b. absurd a;
      seeds_admitted = λ k s. tt;
      ends_admitted = λ order n o e k all low is has. tt;
      seeds_end = λ o e k is has. absurd is;
      edges_stay = λ xs ys n o e a b same is. is;
    } };
}

// The edge to the two nodes after a number.
fn strand(alloc: Global, number: u32) -> Result<Edges<Node, (Place, Place)>, ExpandError>
    requires { number ≤ 200000 }
    ensures ends { IfOk result (λ r. r.ends.items ≡ record { number = number + 1 } ∷ record
        { number = number + 2 } ∷ []) }
    ensures rules { IfOk result (λ r. r.rules.items ≡ (Place.End 0, Place.End 1) ∷ []) }
    ensures parts { IfOk result (λ r. r.parts ≡ 1) }
    ensures error { IfErr result (λ e. e ≡ ExpandError.OutOfMemory) }
{
    let nodes = [Node { number: number + 1 }, Node { number: number + 2 }];
    let Ok(ends) = Vec::from_array(alloc, nodes) else {
        return Err(ExpandError::OutOfMemory);
    };
    let Ok(rules) = Vec::from_array(alloc, [(Place::End(0), Place::End(1))]) else {
        return Err(ExpandError::OutOfMemory);
    };
    Ok(Edges {
        ends,
        rules,
        parts: 1,
    })
}

// A gate that counts what passes, adds up the items, and counts the calls that one worker alone
// does not make: it passes 0, 1, 2 and so on, as the worker 0.
#[derive(Drop)]
struct Counting {
    passes: AtomicU64,
    sum: AtomicU64,
    others: AtomicU64,
}

impl Counting {
    // Nothing passed.
    fn new() -> Counting {
        Counting {
            passes: AtomicU64::new(0),
            sum: AtomicU64::new(0),
            others: AtomicU64::new(0),
        }
    }

    // Whether this many items passed, with this sum.
    fn counts_are(&self, passes: u64, sum: u64) -> bool {
        self.passes.load(Ordering::SeqCst) == passes && self.sum.load(Ordering::SeqCst) == sum
    }
}

impl Gate for Counting {
    fn pass(&self, worker: u32, item: u32) {
        let before = self.passes.fetch_add(1, Ordering::SeqCst);
        self.sum.fetch_add(item as u64, Ordering::SeqCst);
        if worker != 0 || before != item as u64 {
            self.others.fetch_add(1, Ordering::SeqCst);
        }
    }
}

// Whether strands are found that have this many keys and parts.
fn finds(alloc: Global, strands: &Strands, gate: &Counting, keys: usize, parts: u64) -> bool {
    match hunt_alone(alloc, strands, MOST_PARTS, gate) {
        Ok(found) => found.order.len() == keys && found.parts == parts,
        Err(_) => false,
    }
}

// Whether strands have this many keys and parts, and as many items pass in order, with this sum.
fn pass_once(alloc: Global, strands: &Strands, keys: usize, parts: u64, sum: u64) -> bool {
    let gate = Counting::new();
    finds(alloc, strands, &gate, keys, parts)
        && gate.counts_are(keys as u64, sum)
        && gate.others.load(Ordering::SeqCst) == 0
}

/// Strands in rounds of two items.
const NARROW: Strands = Strands {
    times: 1,
    length: 70_000,
};

/// Strands in rounds that become twice as large each time.
const WIDE: Strands = Strands {
    times: 2,
    length: 35_000,
};

#[test]
fn many_strands_are_found_and_each_item_passes_once(rt: HostRuntime) {
    assert!(rt; pass_once(rt.alloc(), &NARROW, 70_002, 210_004, 2_450_105_001));
    assert!(rt; pass_once(rt.alloc(), &WIDE, 70_001, 175_001, 2_450_035_000));
}

// Whether two hunts gave the same answer.
fn agree(
    one: &Result<Found<Node, (u32, u32)>, HuntError>,
    other: &Result<Found<Node, (u32, u32)>, HuntError>,
) -> bool {
    match one {
        Ok(found) => match other {
            Ok(plain) => are_same(found, plain),
            Err(_) => false,
        },
        Err(error) => match other {
            Ok(_) => false,
            Err(plain) => error == plain,
        },
    }
}

// Whether two reached sets have the same keys, the same rules and as many parts.
fn are_same(one: &Found<Node, (u32, u32)>, other: &Found<Node, (u32, u32)>) -> bool {
    if &one.order[..] != &other.order[..] {
        return false;
    }
    &one.rules[..] == &other.rules[..] && one.parts == other.parts
}

/// A few strands.
const FEW: Strands = Strands {
    times: 2,
    length: 40,
};

// Whether a crew of this many workers finds what one worker found.
fn finds_as_well<R: Threads + Wait + Sync>(
    rt: &R,
    alloc: Global,
    workers: u32,
    limit: u64,
    plain: &Result<Found<Node, (u32, u32)>, HuntError>,
) -> bool
    requires workers { (1 ≤ workers) × (workers ≤ 16) }
    requires limit { (1 ≤ limit) × (limit ≤ most_parts) }
{
    let found = hunt(rt, alloc, &FEW, workers, limit, &Open);
    agree(&found, plain)
}

// Whether a crew of this many workers and one worker alone give the same answer.
fn crew_agrees<R: Threads + Wait + Sync>(rt: &R, alloc: Global, workers: u32, limit: u64) -> bool
    requires workers { (1 ≤ workers) × (workers ≤ 16) }
    requires limit { (1 ≤ limit) × (limit ≤ most_parts) }
{
    let plain = hunt_alone(alloc, &FEW, limit, &Open);
    finds_as_well(rt, alloc, workers, limit, &plain)
}

#[test]
fn crews_find_the_strands_that_one_worker_finds(rt: HostRuntime) {
    for workers in [1, 2, 3, 16] {
        for limit in 1..210 {
            assert!(rt; crew_agrees(&rt, rt.alloc(), workers, limit));
        }
    }
}

// Whether a crew of this many workers finds the 81 keys of a few strands through a gate.
fn crew_finds<R: Threads + Wait + Sync>(
    rt: &R,
    alloc: Global,
    workers: u32,
    gate: &Counting,
) -> bool
    requires workers { (1 ≤ workers) × (workers ≤ 16) }
{
    match hunt(rt, alloc, &FEW, workers, MOST_PARTS, gate) {
        Ok(found) => found.order.len() == 81,
        Err(_) => false,
    }
}

// Whether each of these keys passes once.
fn pass_crew_once<R: Threads + Wait + Sync>(rt: &R, alloc: Global, workers: u32) -> bool
    requires workers { (1 ≤ workers) × (workers ≤ 16) }
{
    let gate = Counting::new();
    crew_finds(rt, alloc, workers, &gate) && gate.counts_are(81, 3240)
}

#[test]
fn each_item_passes_once_by_crews(rt: HostRuntime) {
    for workers in [2, 3, 16] {
        assert!(rt; pass_crew_once(&rt, rt.alloc(), workers));
    }
}

// Whether a crew of one worker calls the gate as one worker alone does.
fn one_passes_in_order<R: Threads + Wait + Sync>(rt: &R, alloc: Global) -> bool {
    let gate = Counting::new();
    crew_finds(rt, alloc, 1, &gate)
        && gate.counts_are(81, 3240)
        && gate.others.load(Ordering::SeqCst) == 0
}

#[test]
fn a_crew_of_one_calls_the_gate_as_one_worker_alone(rt: HostRuntime) {
    assert!(rt; one_passes_in_order(&rt, rt.alloc()));
}
