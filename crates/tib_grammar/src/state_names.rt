// Names of states.
ghost use Rattle.std.specs.Prelude.{◌≡◌, ℕ, ◌<◌, ◌^◌, nat_eq, length, map, IfOk, IfSome, None, Some, IsTrue, false, slice_get, Contains};
ghost use Rattle.std.specs.List.{list_any};
ghost use Rattle.tib_grammar.specs.StateName.{IsStateName, AreStateNames};

use crate::Names;
use indexmap::IndexSet;
use std::alloc::{AllocError, Global};
use tib_lex::is_name;
use tib_tree::Labels;

// Whether a text has a full stop.
fn has_stop(text: &[u8]) -> bool
    ensures { result ≡ list_any (nat_eq 46) text.now }
{
    text.contains(&b'.')
}

// Whether a text is a state name.
fn is_state_name(text: &[u8]) -> bool
    ensures yes { IsTrue result → IsStateName text.now }
    ensures no { result ≡ false → IsStateName text.now → ⊥ }
{
    if !is_name(text) {
        return false;
    }
    !has_stop(text)
}

impl Names {
    /// The texts as names, in their order. Returns none exactly if a text is not a state name,
    /// which is a nonempty run of name bytes without a full stop that is not `->`, or occurs twice.
    /// Err only if memory is refused. After either the texts are dropped. Worst case: one pass over
    /// their bytes, and one look-up by hash for each.
    pub fn from_list(alloc: Global, texts: Vec<Vec<u8>>) -> Result<Option<Names>, AllocError>
        requires { length texts.items < 2 ^ 32 }
        ensures same { IfOk result (λ r. IfSome r (λ n. n ≡ map (λ text. text.items) texts.items)) }
        ensures sound { IfOk result (λ r. IfSome r (λ n. AreStateNames n)) }
        ensures none { IfOk result (λ r. r ≡ None → AreStateNames (map (λ text.
            text.items) texts.items) → ⊥) }
    {
        let mut names = IndexSet::with_capacity(alloc, texts.len())?;
        for text in texts {
            if !is_state_name(&text) {
                return Ok(None);
            }
            let (_, is_new) = names.insert_full(text)?;
            if !is_new {
                return Ok(None);
            }
        }
        Ok(Some(Names { texts: names }))
    }

    /// The texts of a table, which are state names, as names in their order. It takes one step
    /// and no memory.
    pub fn from_labels(texts: Labels) -> Names
        requires { AreStateNames texts }
        ensures { result ≡ texts }
    {
        Names {
            texts: texts.into_texts(),
        }
    }

    /// How many names. It takes no memory.
    pub fn len(&self) -> u32
        ensures { result ≡ length self.now }
    {
        self.texts.len() as u32
    }

    /// The name of a state, by its number. It takes no memory.
    pub fn text(&self, state: u32) -> &[u8]
        requires { state < length self.now }
        ensures { slice_get self.now state ≡ Some result.now }
    {
        &self.texts[state as usize]
    }

    /// The number of a name, if there is one. It takes no memory. Cost: one look-up by hash.
    pub fn find(&self, text: &[u8]) -> Option<u32>
        ensures found { IfSome result (λ n. slice_get self.now n ≡ Some text.now) }
        ensures none { result ≡ None → Contains self.now text.now → ⊥ }
    {
        match self.texts.get_index_of(text) {
            Some(i) => Some(i as u32),
            None => None,
        }
    }

    /// What holds of all names: each is a state name, none occurs twice, and there are fewer than
    /// 2^32.
    pub fn is_sound(&self)
        ensures names { AreStateNames self.now }
        ensures few { length self.now < 2 ^ 32 }
    {
        let _ = &self.texts;
    }
}
