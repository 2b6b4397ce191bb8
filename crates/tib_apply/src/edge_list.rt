// The edges of a key, listed one after another.
ghost use Rattle.std.specs.Prelude.{◌≡◌, length};

use crate::key::Key;
use std::alloc::Global;
use tib_expand::Edges;
use tib_grammar::Rule;

/// The edges of the key at a position, as far as they are listed, within a budget of parts. In a
/// rule the left number is the position, and the numbers in the right-hand side are those of ends.
#[derive(Drop)]
pub struct EdgeList {
    /// The ends, one after another.
    pub ends: Vec<Key>,
    /// The rules.
    pub rules: Vec<Rule<u32>>,
    /// The parts of the rules.
    pub parts: u64,
    /// The position.
    pub position: u32,
    /// The budget.
    pub budget: u64,
}

impl EdgeList {
    /// The empty list of edges of the key at a position.
    pub fn new(alloc: Global, position: u32, budget: u64) -> EdgeList
        ensures position { result.position ≡ position }
        ensures budget { result.budget ≡ budget }
        ensures ends { length result.ends.items ≡ 0 }
        ensures rules { length result.rules.items ≡ 0 }
        ensures parts { result.parts ≡ 0 }
    {
        EdgeList {
            ends: Vec::new(alloc),
            rules: Vec::new(alloc),
            parts: 0,
            position,
            budget,
        }
    }

    /// The ends, the rules and their parts.
    pub fn into_edges(self) -> Edges<Key, Rule<u32>>
        ensures ends { result.ends.items ≡ self.ends.items }
        ensures rules { result.rules.items ≡ self.rules.items }
        ensures parts { result.parts ≡ self.parts }
    {
        let EdgeList {
            ends,
            rules,
            parts,
            ..
        } = self;
        Edges { ends, rules, parts }
    }
}
