//! The places of rules by the states that are there.

ghost use Rattle.std.specs.Prelude.{◌≡◌, ℕ, ◌<◌, ◌^◌, length, IfOk, OnOk};
ghost use Rattle.tib_lex.specs.Lists.{Has};
ghost use Rattle.tib_grammar.specs.Forms.{AreNormal};
ghost use Rattle.tib_determinize.specs.declared.occurrences.Occurrence as declared;
ghost use Rattle.tib_determinize.specs.Alive.{states_of};
ghost use Rattle.tib_determinize.specs.Holders.{HoldMore, held};
ghost use Rattle.tib_determinize.specs.Occurrences.{AreFound, HoldPlaces, IsHeld, bucket};

use crate::alive::state_at;
use crate::vector::Vector;
use std::alloc::{AllocError, Global};
use tib_grammar::Rule;
use tib_tree::Label;

/// A place of a rule, with the bucket of the rule's label.
#[derive(Drop)]
pub(crate) struct Occurrence {
    pub bucket: u32,
    pub place: u32,
    pub rule: u32,
}

// Makes a list for a number, and for each one below it.
fn make_room(alloc: Global, lists: &mut Vec<Vec<Occurrence>>, number: u32) -> Result<(), AllocError>
    ensures more { OnOk result (HoldMore lists.old.items lists.new.items) }
    ensures room { OnOk result (number < length lists.new.items) }
{
    while lists.len() <= number as usize {
        lists.push(Vec::new(alloc))?;
    }
    Ok(())
}

// Adds a place of a rule to the list of a number.
fn add(
    alloc: Global,
    lists: &mut Vec<Vec<Occurrence>>,
    number: u32,
    occurrence: Occurrence,
) -> Result<(), AllocError>
    ensures more { OnOk result (HoldMore lists.old.items lists.new.items) }
    ensures own { OnOk result (Has (held lists.new.items number) occurrence) }
{
    make_room(alloc, lists, number)?;
    lists[number as usize].push(occurrence)?;
    Ok(())
}

// The bucket of a label, of this many buckets.
fn bucket_of(label: Label, many: u32) -> u32
    ensures { result ≡ bucket label many }
{
    if many == 0 { 0 } else { label % many }
}

// Adds the places of a rule to the lists of their states.
fn add_rule(
    alloc: Global,
    lists: &mut Vec<Vec<Occurrence>>,
    rules: &[Rule<u32>],
    many: u32,
    rule: u32,
) -> Result<(), AllocError>
    requires normal { AreNormal rules.now }
    requires below { rule < length rules.now }
    ensures more { OnOk result (HoldMore lists.old.items lists.new.items) }
    ensures own { OnOk result ((j : ℕ) → j < length (states_of rules.now rule) →
        IsHeld rules.now many lists.new.items rule j) }
{
    let (label, rank) = rules[rule as usize].root();
    let bucket = bucket_of(label, many);
    for place in 0..rank {
        let state = state_at(rules, place as usize, rule);
        let occurrence = Occurrence {
            bucket,
            place,
            rule,
        };
        add(alloc, lists, state, occurrence)?;
    }
    Ok(())
}

// A copy of a place.
fn copied(one: &Occurrence) -> Occurrence
    ensures { result ≡ one.now }
{
    Occurrence {
        bucket: one.bucket,
        place: one.place,
        rule: one.rule,
    }
}

// Adds places of rules to the lists of their buckets.
fn add_all(
    alloc: Global,
    found: &mut Vec<Vec<Occurrence>>,
    places: &[Occurrence],
) -> Result<(), AllocError>
    ensures more { OnOk result (HoldMore found.old.items found.new.items) }
    ensures own { OnOk result ((o : declared.Occurrence) → Has places.now o →
        Has (held found.new.items o.bucket) o) }
{
    for one in places {
        let occurrence = copied(one);
        let bucket = occurrence.bucket;
        add(alloc, found, bucket, occurrence)?;
    }
    Ok(())
}

// The list of a number, empty where there is none.
fn list_of(lists: &[Vec<Occurrence>], number: u32) -> &[Occurrence]
    ensures { result.now ≡ held lists.now number }
{
    match lists.get(number as usize) {
        Some(places) => places,
        None => &[],
    }
}

/// For each state the places of rules at which it is.
#[derive(Drop)]
pub(crate) struct Occurrences {
    pub lists: Vec<Vec<Occurrence>>,
    pub many: u32,
}

impl Occurrences {
    /// The places of rules by the states that are there, each with the bucket of its rule's label,
    /// of this many. Err only if memory is refused. Cost: one step for each place.
    pub fn new(alloc: Global, rules: &[Rule<u32>], many: u32) -> Result<Occurrences, AllocError>
        requires normal { AreNormal rules.now }
        requires few { length rules.now < 2 ^ 32 }
        ensures { IfOk result (λ o. HoldPlaces rules.now o.many (length rules.now) o.lists.items) }
    {
        let mut lists = Vec::new(alloc);
        for rule in 0..rules.len() {
            add_rule(alloc, &mut lists, rules, many, rule as u32)?;
        }
        Ok(Occurrences { lists, many })
    }

    /// The places of rules whose states are in a vector, by the buckets of their labels. Err only
    /// if memory is refused. Cost: one step for each of these places, and for each bucket.
    pub fn standing(
        &self,
        alloc: Global,
        vector: &Vector,
    ) -> Result<Vec<Vec<Occurrence>>, AllocError>
        ensures { IfOk result (λ found. AreFound vector.now self.now.lists.items found.items) }
    {
        let mut found = Vec::with_capacity(alloc, self.many as usize)?;
        let entries = vector.entries();
        for i in 0..entries.len() {
            add_all(alloc, &mut found, list_of(&self.lists, entries[i].0))?;
        }
        Ok(found)
    }

    /// Of the places of rules by buckets those in the bucket of a label. It takes no memory and one
    /// step.
    pub fn of_label<'f>(&self, found: &'f [Vec<Occurrence>], label: Label) -> &'f [Occurrence]
        ensures { result.now ≡ held found.now (bucket label self.now.many) }
    {
        list_of(found, bucket_of(label, self.many))
    }
}
