// Distinct texts, numbered in the order of first sight, in a hash table.
ghost use Rattle.std.specs.Prelude.{◌≡◌, ℕ, ◌+◌, ◌-◌, ◌^◌, ◌<◌, ◌≤◌, List, [], ◌∷◌, ◌++◌, length, IfOk, OnOk, OnErr, slice_get, Some, Contains, IfSome, None, map};
ghost use Rattle.tib_lex.specs.Lines.{HasNoFeed};
ghost use Rattle.tib_lex.specs.Lists.{Each};
ghost use Rattle.tib_tree.specs.Grows.{Grows, Adds, AreDistinct};

use indexmap::IndexSet;
use std::alloc::{AllocError, Global};
use std::marker::Model;

/// Distinct texts without a line feed, in the order of first sight. A text's number is its place.
#[derive(Drop)]
pub(crate) struct TextSet {
    texts: IndexSet<Vec<u8>>,
    alloc: Global,
}

impl Model for TextSet {
    ghost use Rattle.std.specs.Prelude.{ℕ, List};

    ghost Value = { List (List ℕ) };

    ghost use Rattle.tib_tree.specs.LabelTexts.{texts_of, IsTable};

    ghost view = { texts_of };

    ghost invariant = { IsTable };
}

impl TextSet {
    /// An empty table.
    pub fn new(alloc: Global) -> TextSet
        ensures { result ≡ [] }
    {
        TextSet {
            texts: IndexSet::new(alloc),
            alloc,
        }
    }

    /// How many texts, which are distinct and have no line feed. Takes no memory.
    pub fn len(&self) -> usize
        ensures value { result ≡ length self.now }
        ensures few { length self.now < 2 ^ 32 }
        ensures distinct { AreDistinct self.now }
        ensures plain { Each HasNoFeed self.now }
    {
        self.texts.len()
    }

    /// The number of a text, if the table has it. Takes no memory.
    pub fn find(&self, text: &[u8]) -> Option<u32>
        ensures found { IfSome result (λ n. slice_get self.now n ≡ Some text.now) }
        ensures none { result ≡ None → Contains self.now text.now → ⊥ }
    {
        match self.texts.get_index_of(text) {
            Some(i) => Some(i as u32),
            None => None,
        }
    }

    /// The number of a text, which is added after the others if it is new. Err only if memory is
    /// refused; the table is as before.
    pub fn intern(&mut self, text: &[u8]) -> Result<u32, AllocError>
        requires plain { HasNoFeed text.now }
        requires room { length self.old < 2 ^ 32 - 1 }
        ensures named { IfOk result (λ n. slice_get self.new n ≡ Some text.now) }
        ensures err { OnErr result (self.new ≡ self.old) }
        ensures grows { Grows self.old self.new }
        ensures adds { IfOk result (λ n. Adds self.old text.now self.new) }
    {
        if let Some(i) = self.texts.get_index_of(text) {
            return Ok(i as u32);
        }
        let owned = text.to_vec(self.alloc)?;
        let (i, _) = self.texts.insert_full(owned)?;
        Ok(i as u32)
    }

    /// The text of a number. Takes no memory.
    pub fn text(&self, label: u32) -> &[u8]
        requires { label < length self.now }
        ensures { slice_get self.now label ≡ Some result.now }
    {
        &self.texts[label as usize]
    }

    /// The texts as a set, in their order. Takes no memory.
    pub fn into_texts(self) -> IndexSet<Vec<u8>>
        ensures texts { map (λ text. text.items) result.keys ≡ self }
        ensures few { length result.keys < 2 ^ 32 }
    {
        let TextSet { texts, .. } = self;
        texts
    }
}
