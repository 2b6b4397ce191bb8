// The locks of all shelves, and how a key is put on its shelf in a turn.
ghost use Rattle.std.specs.Prelude.{◌≡◌, ◌≤◌, ℕ, [], map, length, false, Some, slice_get, IfOk, IfErr};
ghost use Rattle.std.specs.List.{All, AllZip};
ghost use Rattle.std.specs.Vec.{vec_capacity};
ghost use Rattle.tib_turn.specs.Prefixes.{IsPrefix};
ghost use Rattle.tib_table.specs.Kept.{shelf_log};
ghost use Rattle.tib_table.specs.Seated.{IsLogOf, known_of, lock_of, Closes, AreOpened};

use crate::board::Board;
use crate::problem::Problem;
use std::alloc::{AllocError, Global};
use std::sync::Wait;
use tib_expand::TableKey;
use tib_turn::{Pass, TurnLock};

/// How many shelves a table has.
pub const SHELVES: usize = 16;

/// Locks over shelves, and a pass to each.
type Opened<P> = (Vec<TurnLock<Board<P>>>, Vec<Pass<Board<P>>>);

/// An empty shelf under a lock, and the first pass. Err if memory is refused.
pub fn open_lock<P: Problem>(
    alloc: Global,
    problem: P,
    place: u32,
) -> Result<(TurnLock<Board<P>>, Pass<Board<P>>), AllocError>
    ensures { IfOk result (λ r. r.1 ≡ record {
      lock = r.0;
      seen = shelf_log (P.about problem, place) [];
      inside = false;
    }) }
{
    match TurnLock::open(alloc, Board::open(alloc, problem, place)) {
        Ok((lock, pass)) => Ok((lock, pass)),
        Err(_) => Err(AllocError),
    }
}

/// Numbers the key in one turn of a shelf. The pass then knows it at that place. Only if memory is
/// refused does the key come back. It may wait forever, while another turn is held. Cost: one turn,
/// and one look-up by hash.
pub fn number_in_turn<P: Problem, R: Wait>(
    rt: &R,
    lock: &TurnLock<Board<P>>,
    pass: &mut Pass<Board<P>>,
    key: P::Key,
) -> Result<u64, P::Key>
    requires lock { pass.old.lock ≡ lock.now }
    requires outside { pass.old.inside ≡ false }
    requires key { (d : P.Data × ℕ) × IsLogOf d pass.old.seen × P.may_hold d.0 key
        × (P.Key.shelf_of key ≡ d.1) }
    ensures lock { pass.new.lock ≡ lock.now }
    ensures outside { pass.new.inside ≡ false }
    ensures log { (d : P.Data × ℕ) → IsLogOf d pass.old.seen → IsLogOf d pass.new.seen }
    ensures more { IsPrefix (known_of pass.old) (known_of pass.new) }
    ensures named { IfOk result (λ n. slice_get (known_of pass.new) n ≡ Some key) }
    ensures refused { IfErr result (λ k. k ≡ key) }
{
    let mut turn = lock.enter(rt, pass);
    let numbered = turn.value.number(key);
    lock.leave(turn, pass);
    numbered
}

/// Waits for a last turn of a shelf, and returns the shelf.
pub fn close_lock<P: Problem, R: Wait>(
    rt: &R,
    lock: TurnLock<Board<P>>,
    pass: Pass<Board<P>>,
) -> Board<P>
    requires lock { pass.lock ≡ lock }
    requires outside { pass.inside ≡ false }
    ensures { Closes (λ d k. P.may_hold d.0 k × (P.Key.shelf_of k ≡ d.1)) P.Key.eq pass result }
{
    let shelf = lock.close(rt, pass);
    // `len` is called for its clauses on the keys.
    let _len = shelf.len();
    shelf
}

/// Sixteen empty shelves under locks, and the first pass to each. Err if memory is refused.
pub fn open_locks<P: Problem + Copy>(
    alloc: Global,
    problem: P,
    mut locks: Vec<TurnLock<Board<P>>>,
    mut passes: Vec<Pass<Board<P>>>,
) -> Result<Opened<P>, AllocError>
    requires { (locks.items ≡ []) × (passes.items ≡ []) }
    ensures { IfOk result (λ r. AreOpened (P.about problem) 16 r.0.items r.1.items) }
{
    locks.reserve(SHELVES)?;
    passes.reserve(SHELVES)?;
    for shelf in 0..SHELVES as u32 {
        let (lock, pass) = open_lock(alloc, problem, shelf)?;
        locks.push_reserved(lock);
        passes.push_reserved(pass);
    }
    Ok((locks, passes))
}

/// Waits for a last turn of each shelf, and puts the shelves into `room` in order.
pub fn close_locks<P: Problem, R: Wait>(
    rt: &R,
    mut locks: Vec<TurnLock<Board<P>>>,
    mut passes: Vec<Pass<Board<P>>>,
    mut room: Vec<Board<P>>,
) -> Vec<Board<P>>
    requires locks { map lock_of passes.items ≡ locks.items }
    requires outside { All (λ s. s.inside ≡ false) passes.items }
    requires room { (room.items ≡ []) × (length locks.items ≤ vec_capacity room) }
    ensures { AllZip (Closes (λ d k. P.may_hold d.0 k × (P.Key.shelf_of k ≡ d.1)) P.Key.eq)
        passes.items result.items }
{
    while let Some(lock) = locks.pop() {
        let Some(pass) = passes.pop() else {
            unreachable!()
        };
        room.push_reserved(close_lock(rt, lock, pass));
    }
    room.reverse();
    room
}
