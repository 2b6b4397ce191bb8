//! Hunts by several workers: two expand a round of two items side by side, and an item for which a
//! worker finds no memory isn't lost.

ghost use Rattle.std.specs.Cmp.{partial_order_from_own_ties};
ghost use Rattle.std.specs.Cmp.Rules.{comparing, hashing};
ghost use Rattle.std.specs.Hash as fed;
ghost use Rattle.std.specs.Ordering.{nat_cmp, as_partial_cmp};
ghost use Rattle.std.specs.Prelude.{◌≡◌, ◌≤◌, ℕ, ◌∷◌, [], length, nat_eq, if◌then◌else◌, IfOk};
ghost use Rattle.std.proofs.Common.{◌∙◌, rules, sym};

use crate::small::has_sizes;
use std::alloc::{AllocError, Global};
use std::cmp::Ordering as Order;
use std::hash::{Hash, Hasher};
use std::marker::Model;
use std::sync::Wait;
use std::sync::atomic::{AtomicU64, Ordering};
use std::thread::Threads;
use tib_expand::{Edges, Expand, ExpandError, Open, TableKey};
use tib_hunt::hunt;

/// How often a worker looks for another before it gives up.
const TURNS: u32 = 200_000_000;

/// A number. The flag is set when 2 is asked for its shelf, which is when 2 is numbered. A look-up
/// among the known keys computes its hash alone, and sets no flag.
#[derive(Drop)]
struct Flagged<'a> {
    number: u32,
    numbered: &'a AtomicU64,
}

impl<'a> Model for Flagged<'a> {
    ghost Value = { ℕ };

    ghost view = { λ k. k.number };
}

impl<'a> PartialEq for Flagged<'a> {
    ghost eq = { nat_eq };

    ghost laws = { Prim.search (comparing, rules) };

    fn eq(&self, other: &Flagged<'a>) -> bool {
        self.number == other.number
    }
}

impl<'a> Eq for Flagged<'a> {
    ghost laws = { Prim.search (comparing, rules) };
}

impl<'a> Ord for Flagged<'a> {
    ghost cmp = { nat_cmp };

    ghost total = { Prim.search (comparing, rules) };

    ghost matches_partial_cmp = { Prim.search (comparing, rules) };

    ghost matches_eq = { Prim.search (comparing, rules) };

    fn cmp(&self, other: &Flagged<'a>) -> Order {
        self.number.cmp(&other.number)
    }
}

impl<'a> PartialOrd for Flagged<'a> {
    ghost partial_cmp = { as_partial_cmp nat_cmp };

    ghost laws = { partial_order_from_own_ties (Prim.search (comparing, rules))
        (Prim.search (comparing, rules)) };

    fn partial_cmp(&self, other: &Flagged<'a>) -> Option<Order> {
        Some(self.cmp(other))
    }
}

impl<'a> Hash for Flagged<'a> {
    ghost hash_input = { λ n. fed.u32 n };

    ghost respects_eq = { Prim.search (hashing, rules) };

    fn hash<H: Hasher>(&self, state: &mut H) {
        self.number.hash(state);
    }
}

impl<'a> TableKey for Flagged<'a> {
    ghost use Rattle.std.specs.Prelude.{◌%◌};
    ghost use Rattle.std.proofs.Common.{arith, mod-lt};
    ghost use Rattle.std.proofs.lemmas.Bool.Decides.{nat_tests};

    ghost shelf_of = { λ n. n % 16 };

    ghost entries_of = { λ _. 0 };

    fn shelf(&self) -> u32 {
        if self.number == 2 {
            self.numbered.store(1, Ordering::SeqCst);
        }
        self.number % 16
    }

    fn entries(&self) -> u64 {
        0
    }

    ghost low = { λ n. mod-lt n (Prim.omega arith) };

    ghost same = { λ x y e. Prim.search (rules, nat_tests) };
}

/// An operation over numbers: the seeds 0 and 1, and from each number an edge, which ends at 2
/// where it comes from 0, and else at no key. If set to wait, 0 waits until 1 is being expanded,
/// and 1 until 2 is numbered. The first expansions are refused, as many as it is given.
#[derive(Drop)]
struct Meeting<'a> {
    numbered: &'a AtomicU64,
    waits: bool,
    refusals: u64,
    calls: AtomicU64,
    begun: AtomicU64,
    gave_up: AtomicU64,
}

// Whether the flag is set within a number of looks.
fn is_set(flag: &AtomicU64) -> bool {
    for _ in 0..TURNS {
        if flag.load(Ordering::SeqCst) == 1 {
            return true;
        }
    }
    false
}

impl<'a> Meeting<'a> {
    // An operation that nobody has begun to expand.
    fn new(numbered: &'a AtomicU64, waits: bool, refusals: u64) -> Meeting<'a> {
        Meeting {
            numbered,
            waits,
            refusals,
            calls: AtomicU64::new(0),
            begun: AtomicU64::new(0),
            gave_up: AtomicU64::new(0),
        }
    }

    // Waits for the other worker.
    fn meet(&self, n: u32) {
        if n == 1 {
            self.begun.store(1, Ordering::SeqCst);
        }
        let met = match n {
            0 => is_set(&self.begun),
            1 => is_set(self.numbered),
            _ => true,
        };
        if !met {
            self.gave_up.store(1, Ordering::SeqCst);
        }
    }

    // The keys at which the edge from a number ends.
    fn ends_of(&self, alloc: Global, n: u32) -> Result<Vec<Flagged<'a>>, AllocError>
        ensures ends { IfOk result (λ v. v.items ≡ if nat_eq n 0 then 2 ∷ [] else []) }
        ensures few { IfOk result (λ v. length v.items ≤ 1) }
    {
        if n != 0 {
            return Ok(Vec::new(alloc));
        }
        let number = 2;
        let numbered = self.numbered;
        let Ok(ends) = Vec::from_array(alloc, [Flagged { number, numbered }]) else {
            return Err(AllocError);
        };
        Ok(ends)
    }
}

impl<'a> Expand for Meeting<'a> {
    ghost use Rattle.std.specs.Prelude.{refl};
    ghost use Rattle.tib_lex.specs.Lists.{Has};
    ghost use Rattle.tib_expand.specs.Keys.{key_parts};
    ghost use Rattle.tib_expand.specs.Reached.{exploration};

    type Key = Flagged<'a>;

    type Over = u32;

    type Rule = u32;

    type Index = ();

    type Origin = u32;

    type Edge = u32;

    ghost hunted = { λ _. exploration nat_cmp (Has (0 ∷ 1 ∷ [])) (λ _ _. ⊥) (λ _ n o e. (o ≡ 0) × (e ≡ n))
        (λ e. if nat_eq e 0 then 2 ∷ [] else []) (key_parts (λ _. 0)) (λ _. 1) };

    ghost admits = { λ _ _. Unit {0} };

    ghost indexes = { λ _ _ _. Unit {0} };

    ghost reading = { record {
      places = λ _. [];
      positions = λ _. [];
      read_places = λ _ r. r;
      read_positions = λ _ r. r;
    } };

    fn seeds(&self, alloc: Global, budget: u64) -> Result<Edges<Flagged<'a>, u32>, ExpandError> {
        let _budget = budget;
        let numbered = self.numbered;
        let seeds = [
            Flagged {
                number: 0,
                numbered,
            },
            Flagged {
                number: 1,
                numbered,
            },
        ];
        let Ok(ends) = Vec::from_array(alloc, seeds) else {
            return Err(ExpandError::OutOfMemory);
        };
        Ok(Edges {
            ends,
            rules: Vec::new(alloc),
            parts: 0,
        })
    }

    fn begin_index(&self, _alloc: Global) -> Result<(), AllocError> {
        Ok(())
    }

    fn extend_index(
        &self,
        _alloc: Global,
        _index: &mut (),
        _order: &[Flagged<'a>],
        _from: u32,
    ) -> Result<(), AllocError> {
        Ok(())
    }

    fn expand(
        &self,
        alloc: Global,
        order: &[Flagged<'a>],
        _index: &(),
        n: u32,
        budget: u64,
    ) -> Result<Edges<Flagged<'a>, u32>, ExpandError> {
        let _position = &order[n as usize];
        if budget == 0 {
            return Err(ExpandError::More);
        }
        if self.waits {
            self.meet(n);
        }
        if self.calls.fetch_add(1, Ordering::SeqCst) < self.refusals {
            return Err(ExpandError::OutOfMemory);
        }
        let Ok(ends) = self.ends_of(alloc, n) else {
            return Err(ExpandError::OutOfMemory);
        };
        let Ok(rules) = Vec::from_array(alloc, [n]) else {
            return Err(ExpandError::OutOfMemory);
        };
        Ok(Edges {
            ends,
            rules,
            parts: 1,
        })
    }

    fn settle(&self, alloc: Global, rule: &u32, ends: &[u32]) -> Result<u32, AllocError> {
        let _both = (alloc, ends.len());
        Ok(*rule)
    }

    ghost lawful = { λ p. record {
      same_order = refl;
      same_parts = refl;
      reads_places = λ rule f g same. refl;
      reads_positions = λ rule f g same. refl;
      one_edge = λ order n o e f a b. a.1 ∙ sym b.1;
      one_seed_edge = λ o e f a b. absurd a;
      seeds_admitted = λ k s. tt;
      ends_admitted = λ order n o e k all low is has. tt;
      seeds_end = λ o e k is has. absurd is;
      edges_stay = λ xs ys n o e a b same is. is;
    } };
}

// Whether the keys are 0, 1 and 2, in this order.
fn are_three(order: &[Flagged]) -> bool {
    match order {
        [zero, one, two] => zero.number == 0 && one.number == 1 && two.number == 2,
        _ => false,
    }
}

// Whether two workers find the numbers 0, 1 and 2, three rules and six parts.
fn finds_three<R: Threads + Wait + Sync>(rt: &R, alloc: Global, meeting: &Meeting) -> bool {
    match hunt(rt, alloc, meeting, 2, 1000, &Open) {
        Ok(found) => are_three(&found.order) && has_sizes(&found, 3, 3, 6),
        Err(_) => false,
    }
}

// Whether two workers who wait for each other find the three, and none gives up.
fn both_meet<R: Threads + Wait + Sync>(rt: &R, alloc: Global) -> bool {
    let numbered = AtomicU64::new(0);
    let meeting = Meeting::new(&numbered, true, 0);
    finds_three(rt, alloc, &meeting) && meeting.gave_up.load(Ordering::SeqCst) == 0
}

#[test]
fn two_workers_number(rt: HostRuntime) {
    assert!(rt; both_meet(&rt, rt.alloc()));
}

// Whether two workers find the three where the first expansion is refused.
fn finds_what_is_refused_once<R: Threads + Wait + Sync>(rt: &R, alloc: Global) -> bool {
    let numbered = AtomicU64::new(0);
    let meeting = Meeting::new(&numbered, false, 1);
    finds_three(rt, alloc, &meeting)
}

#[test]
fn an_item_that_a_worker_has_no_memory_for_is_found(rt: HostRuntime) {
    assert!(rt; finds_what_is_refused_once(&rt, rt.alloc()));
}
