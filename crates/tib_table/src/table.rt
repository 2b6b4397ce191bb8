// A table: a shelf for the keys of each kind, and the seats at it.
ghost use Rattle.std.specs.Prelude.{◌≡◌, [], replicate, length, IfOk, IfErr};
ghost use Rattle.tib_table.specs.Known.{Names, GoOn, KeepNames, longest, IsNumbering, AreShelves};

use crate::board::Board;
use crate::number::Number;
use crate::problem::Problem;
use crate::shelves::Shelves;
use crate::turns::{SHELVES, close_locks, number_in_turn, open_locks};
use std::alloc::{AllocError, Global};
use std::marker::Model;
use std::sync::Wait;
use tib_expand::TableKey;
use tib_turn::{Pass, TurnLock};

/// Sixteen shelves of keys, each under a lock of its own.
#[derive(Drop)]
pub struct Table<P: Problem + Copy> {
    problem: P,
    locks: Vec<TurnLock<Board<P>>>,
    // Where `close` puts the shelves.
    room: Vec<Board<P>>,
}

impl<P: Problem + Copy> Model for Table<P> {
    ghost use Rattle.std.specs.Prelude.{◌≡◌, ◌≤◌, [], length};
    ghost use Rattle.std.specs.Vec.{vec_capacity};
    ghost use Rattle.tib_table.specs.Known.{TableOf};

    ghost Value = { TableOf P.Data };

    ghost view = { λ t. record { about = P.about t.problem; locks = t.locks.items } };

    ghost invariant = { λ t. (length t.locks.items ≡ 16) × (t.room.items ≡ []) × (16 ≤ vec_capacity t.room) };
}

/// A pass to each shelf of a table. They know the keys that they have seen on each shelf.
#[derive(Drop)]
pub struct Seats<P: Problem + Copy> {
    problem: P,
    passes: Vec<Pass<Board<P>>>,
}

impl<P: Problem + Copy> Model for Seats<P> {
    ghost use Rattle.std.specs.Prelude.{◌≡◌, length};
    ghost use Rattle.tib_table.specs.Known.{Knowledge};
    ghost use Rattle.tib_table.specs.Seated.{knowledge, AreSeated};

    ghost Value = { Knowledge P.Data P.Key };

    ghost view = { λ s. knowledge (P.about s.problem) s.passes.items };

    ghost invariant = { λ s. (length s.passes.items ≡ 16) × AreSeated (P.about s.problem) 0 s.passes.items };
}

impl<P: Problem + Copy> Table<P> {
    /// Sixteen empty shelves, and the first seats. It also takes the room that `close` needs. Err
    /// only if memory is refused.
    pub fn open(alloc: Global, problem: P) -> Result<(Table<P>, Seats<P>), AllocError>
        ensures about { IfOk result (λ r. r.0.about ≡ P.about problem) }
        ensures seats { IfOk result (λ r. r.1 ≡ record { table = r.0; known = replicate 16 [] }) }
    {
        let room = Vec::with_capacity(alloc, SHELVES)?;
        let (locks, passes) = open_locks(alloc, problem, Vec::new(alloc), Vec::new(alloc))?;
        let table = Table {
            problem,
            locks,
            room,
        };
        Ok((table, Seats { problem, passes }))
    }

    /// The number of the key. It takes one turn of the key's shelf. The seats then know that the
    /// number names this key. Only if memory is refused does the key come back; nothing is then
    /// added. It may wait forever, while another turn of this shelf is held. Cost: one turn, and
    /// one look-up by hash.
    pub fn number<R: Wait>(
        &self,
        rt: &R,
        seats: &mut Seats<P>,
        key: P::Key,
    ) -> Result<Number, P::Key>
        requires table { seats.old.table ≡ self.now }
        requires key { P.may_hold self.now.about key }
        ensures table { seats.new.table ≡ self.now }
        ensures more { GoOn seats.old.known seats.new.known }
        ensures named { IfOk result (λ n. Names seats.new.known n.shelf n.place key) }
        ensures shelf { IfOk result (λ n. n.shelf ≡ P.Key.shelf_of key) }
        ensures refused { IfErr result (λ k. k ≡ key) }
    {
        let shelf = key.shelf();
        let at = shelf as usize;
        let place = number_in_turn(rt, &self.locks[at], &mut seats.passes[at], key)?;
        Ok(Number { shelf, place })
    }

    /// Second seats, which know the same. Err only if memory is refused; the seats are then
    /// unchanged.
    pub fn split(&self, alloc: Global, seats: &mut Seats<P>) -> Result<Seats<P>, AllocError>
        requires table { seats.old.table ≡ self.now }
        ensures kept { seats.new ≡ seats.old }
        ensures made { IfOk result (λ s. s ≡ seats.old) }
    {
        let mut passes = Vec::with_capacity(alloc, SHELVES)?;
        for at in 0..SHELVES {
            passes.push_reserved(self.locks[at].split(&mut seats.passes[at]));
        }
        Ok(Seats {
            problem: seats.problem,
            passes,
        })
    }

    /// Takes in other seats. These seats then know what both knew. It takes no memory and never
    /// waits.
    pub fn join(&self, seats: &mut Seats<P>, other: Seats<P>)
        requires table { seats.old.table ≡ self.now }
        requires other_table { other.table ≡ self.now }
        ensures both { seats.new ≡ record {
          table = self.now;
          known = longest seats.old.known other.known;
        } }
        ensures this { GoOn seats.old.known seats.new.known }
        ensures that { GoOn other.known seats.new.known }
    {
        let Seats {
            problem: _,
            passes: mut others,
        } = other;
        while let Some(other) = others.pop() {
            let at = others.len();
            self.locks[at].join(&mut seats.passes[at], other);
        }
    }

    /// Waits for a last turn of each shelf, and returns the shelves. Each number that the seats
    /// know names its key there. No key has two numbers, and the problem may hold each key. It
    /// takes no memory.
    pub fn close<R: Wait>(self, rt: &R, seats: Seats<P>) -> Shelves<P>
        requires table { seats.table ≡ self }
        ensures more { GoOn seats.known result }
        ensures known { KeepNames seats.known result }
        ensures numbering { IsNumbering seats.known }
        ensures shelves { AreShelves (P.may_hold self.about) P.Key.shelf_of result }
    {
        let Table {
            problem: _,
            locks,
            room,
        } = self;
        let Seats { problem: _, passes } = seats;
        Shelves::from_list(close_locks(rt, locks, passes, room))
    }
}
