//! The core of one round: its shelves, the count of drawn items and the filed ones, changed by one
//! event at a time.

ghost use Rattle.std.specs.Prelude.{◌≡◌, ◌<◌, ℕ, [], replicate, length, map, IfOk, OnOk, OnErr};
ghost use Rattle.tib_table.specs.Kept.{keys_of};
ghost use Rattle.tib_table.specs.Known.{on};
ghost use Rattle.tib_hunt.specs.RoundModel.{opened, IsItem, Allowed, after, next_item, with_draw, with_key, with_filed};
ghost use Rattle.tib_hunt.specs.Answers.{IsAnswer, NumbersKey};

use crate::event::{Answer, Event};
use crate::itemized::Itemized;
use std::alloc::{AllocError, Global};
use std::marker::Model;
use tib_expand::TableKey;
use tib_table::{Number, Shelf};

/// How many shelves a round has.
const SHELVES: u32 = 16;

/// The core of one round: sixteen shelves of keys, the count of drawn items, and the list of filed
/// ones. Each step is one event.
#[derive(Drop)]
pub struct Round<P: Itemized> {
    problem: P,
    shelves: Vec<Shelf<P>>,
    drawn: u32,
    filed: Vec<u32>,
}

impl<P: Itemized> Model for Round<P> {
    ghost use Rattle.std.specs.Prelude.{◌≡◌, ◌≤◌, length};
    ghost use Rattle.tib_hunt.specs.Answers.{RoundState, round_state, IsRound};

    ghost Value = { RoundState P.Data P.Key };

    ghost view = { λ r. round_state (P.about r.problem) r.drawn r.shelves.items r.filed.items };

    ghost invariant = { λ r. IsRound (P.about r.problem) (P.count_of (P.about r.problem)) r.drawn r.shelves.items };
}

impl<P: Itemized + Copy> Round<P> {
    /// A round in which nothing is drawn, numbered or filed. Err if memory is refused.
    pub fn open(alloc: Global, problem: P) -> Result<Round<P>, AllocError>
        ensures { IfOk result (λ r. r ≡ record { about = P.about problem; core = opened }) }
    {
        let shelves = open_shelves(alloc, problem)?;
        let filed = Vec::with_capacity(alloc, problem.count() as usize)?;
        Ok(Round {
            problem,
            shelves,
            drawn: 0,
            filed,
        })
    }
}

// Sixteen shelves with no key.
fn open_shelves<P: Itemized + Copy>(alloc: Global, problem: P) -> Result<Vec<Shelf<P>>, AllocError>
    ensures { IfOk result (λ v. v.items ≡ replicate 16 (record
        { about = P.about problem; keys = [] })) }
{
    let mut shelves = Vec::with_capacity(alloc, SHELVES as usize)?;
    for _ in 0..SHELVES {
        shelves.push_reserved(Shelf::open(alloc, problem));
    }
    Ok(shelves)
}

// The keys of shelves.
fn list_shelves<P: Itemized>(
    alloc: Global,
    shelves: Vec<Shelf<P>>,
) -> Result<Vec<Vec<P::Key>>, AllocError>
    ensures { IfOk result (λ r. map (λ v. v.items) r.items ≡ map keys_of shelves.items) }
{
    let mut lists = Vec::with_capacity(alloc, shelves.len())?;
    for shelf in shelves {
        let keys = shelf.into_keys(alloc)?;
        lists.push(keys)?;
    }
    Ok(lists)
}

impl<P: Itemized> Round<P> {
    /// Performs one event. A draw returns the next item, or None if all are drawn; a key is
    /// numbered on its shelf; an item is filed. Err if memory is refused; nothing has then changed.
    /// Cost: at most one look-up by hash.
    pub fn step(&mut self, event: Event<P::Key>) -> Result<Answer, AllocError>
        requires { let d = self.old.about in Allowed P.Key.eq P.Key.shelf_of (P.first_of d)
            (P.count_of d) (P.is_end d) self.old.core event }
        ensures about { self.new.about ≡ self.old.about }
        ensures after { let d = self.old.about in OnOk result
            (self.new.core ≡ after P.Key.eq P.Key.shelf_of (P.first_of d) (P.count_of d)
            (P.is_end d) self.old.core event) }
        ensures answer { let d = self.old.about in IfOk result
            (λ a. IsAnswer P.Key.shelf_of (P.first_of d) (P.count_of d) self.old.core event
            self.new.core a) }
        ensures same { OnErr result (self.new ≡ self.old) }
    {
        match event {
            Event::Draw => Ok(Answer::Drawn(self.draw())),
            Event::Number { key } => self.number(key),
            Event::File { item } => self.file(item),
        }
    }

    /// How many keys a shelf, below 16, has.
    pub fn held(&self, shelf: u32) -> u64
        requires { shelf < 16 }
        ensures { result ≡ length (on self.now.core.shelves shelf) }
    {
        self.shelves[shelf as usize].len()
    }

    /// Ends the round and returns the keys of the sixteen shelves, each shelf in the order of first
    /// sight. Err if memory is refused; the keys are then gone. Each key is moved once.
    pub fn close(self, alloc: Global) -> Result<Vec<Vec<P::Key>>, AllocError>
        ensures { IfOk result (λ r. map (λ v. v.items) r.items ≡ self.core.shelves) }
    {
        let Round {
            problem: _,
            shelves,
            drawn: _,
            filed: _,
        } = self;
        list_shelves(alloc, shelves)
    }

    // The next item, or None if all are drawn.
    fn draw(&mut self) -> Option<u32>
        ensures about { self.new.about ≡ self.old.about }
        ensures next { result ≡ next_item (P.first_of self.old.about) (P.count_of self.old.about)
            self.old.core }
        ensures after { self.new.core ≡ with_draw (P.count_of self.old.about) self.old.core }
    {
        if self.drawn < self.problem.count() {
            let item = self.problem.first() + self.drawn;
            self.drawn += 1;
            Some(item)
        } else {
            None
        }
    }

    // The number of a key that an item may end at.
    fn number(&mut self, key: P::Key) -> Result<Answer, AllocError>
        requires { (i : ℕ) × IsItem (P.first_of self.old.about) self.old.core.drawn i
            × P.is_end self.old.about i key }
        ensures about { self.new.about ≡ self.old.about }
        ensures after { OnOk result (self.new.core ≡ with_key P.Key.eq P.Key.shelf_of self.old.core
            key) }
        ensures answer { IfOk result (λ a. NumbersKey P.Key.shelf_of self.new.core key a) }
        ensures same { OnErr result (self.new ≡ self.old) }
    {
        let shelf = key.shelf();
        let Ok(place) = self.shelves[shelf as usize].number(key) else {
            return Err(AllocError);
        };
        Ok(Answer::Numbered(Number { shelf, place }))
    }

    // Appends an item to the filed ones.
    fn file(&mut self, item: u32) -> Result<Answer, AllocError>
        ensures about { self.new.about ≡ self.old.about }
        ensures after { OnOk result (self.new.core ≡ with_filed self.old.core item) }
        ensures answer { IfOk result (λ a. a ≡ Answer.Filed) }
        ensures same { OnErr result (self.new ≡ self.old) }
    {
        self.filed.push(item)?;
        Ok(Answer::Filed)
    }
}
