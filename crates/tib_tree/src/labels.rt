// The table of labels.
ghost use Rattle.std.specs.Prelude.{◌≡◌, ℕ, ◌+◌, ◌-◌, ◌^◌, ◌<◌, ◌≤◌, List, [], ◌∷◌, ◌++◌, length, IfOk, OnOk, OnErr, slice_get, Some, Contains, IfSome, None, map};
ghost use Rattle.tib_lex.specs.Lines.{HasNoFeed};
ghost use Rattle.tib_lex.specs.Lists.{Each};
ghost use Rattle.tib_tree.specs.Grows.{Grows, Adds, AreDistinct};
ghost use Rattle.tib_tree.specs.Recent.{IsKey};

use crate::recent::{Recent, key_of};
use crate::text_set::TextSet;
use indexmap::IndexSet;
use std::alloc::{AllocError, Global};
use std::marker::Model;

/// Distinct texts without a line feed, in the order of first sight. A text's number is its place.
#[derive(Drop)]
pub struct Labels {
    texts: TextSet,
    recent: Recent,
    alloc: Global,
}

impl Model for Labels {
    ghost use Rattle.std.specs.Prelude.{ℕ, List};
    ghost use Rattle.tib_tree.specs.Recent.{AreSeen};

    ghost Value = { List (List ℕ) };

    ghost view = { λ l. l.texts };

    ghost invariant = { λ l. AreSeen l.texts l.recent };
}

impl Labels {
    /// An empty table. Takes no memory.
    pub fn new(alloc: Global) -> Labels
        ensures { result ≡ [] }
    {
        Labels {
            texts: TextSet::new(alloc),
            recent: Recent::new(alloc),
            alloc,
        }
    }

    /// How many texts, which are distinct and have no line feed. Takes no memory.
    pub fn len(&self) -> usize
        ensures value { result ≡ length self.now }
        ensures few { length self.now < 2 ^ 32 }
        ensures distinct { AreDistinct self.now }
        ensures plain { Each HasNoFeed self.now }
    {
        self.texts.len()
    }

    /// The number of a text, if the table has it. Takes no memory. Cost: one look-up by hash.
    pub fn find(&self, text: &[u8]) -> Option<u32>
        ensures found { IfSome result (λ n. slice_get self.now n ≡ Some text.now) }
        ensures none { result ≡ None → Contains self.now text.now → ⊥ }
    {
        self.texts.find(text)
    }

    /// The number of a text, which is added after the others if it is new. Err only if memory is
    /// refused; the table keeps its texts. Cost: one look-up by hash; for a text of up to seven
    /// bytes that was seen lately, one look at the two places of its key.
    pub fn intern(&mut self, text: &[u8]) -> Result<u32, AllocError>
        requires plain { HasNoFeed text.now }
        requires room { length self.old < 2 ^ 32 - 1 }
        ensures named { IfOk result (λ n. slice_get self.new n ≡ Some text.now) }
        ensures err { OnErr result (self.new ≡ self.old) }
        ensures grows { Grows self.old self.new }
        ensures adds { IfOk result (λ n. Adds self.old text.now self.new) }
    {
        let Some(key) = key_of(text) else {
            return self.texts.intern(text);
        };
        if let Some(label) = self.recent.find(key) {
            return Ok(label);
        }
        self.intern_short(text, key)
    }

    // The number of a text with this key, which was not seen lately.
    fn intern_short(&mut self, text: &[u8], key: u64) -> Result<u32, AllocError>
        requires key { IsKey text.now key }
        requires plain { HasNoFeed text.now }
        requires room { length self.old < 2 ^ 32 - 1 }
        ensures named { IfOk result (λ n. slice_get self.new n ≡ Some text.now) }
        ensures err { OnErr result (self.new ≡ self.old) }
        ensures grows { Grows self.old self.new }
        ensures adds { IfOk result (λ n. Adds self.old text.now self.new) }
    {
        self.recent.make_places(self.alloc)?;
        let label = self.texts.intern(text)?;
        self.recent.note(key, label);
        Ok(label)
    }

    /// The text of a number. Takes no memory.
    pub fn text(&self, label: u32) -> &[u8]
        requires { label < length self.now }
        ensures { slice_get self.now label ≡ Some result.now }
    {
        self.texts.text(label)
    }

    /// The texts as a set in their order, each at its number, for a table that is made from this
    /// one. Takes no memory.
    pub fn into_texts(self) -> IndexSet<Vec<u8>>
        ensures texts { map (λ text. text.items) result.keys ≡ self }
        ensures few { length result.keys < 2 ^ 32 }
    {
        let Labels { texts, .. } = self;
        texts.into_texts()
    }
}
