// The rules of each state, by their left states.
ghost use Rattle.std.specs.Prelude.{◌≡◌, ℕ, ◌<◌, IfOk};
ghost use Rattle.tib_grammar.specs.Range.{AreInRange};
ghost use Rattle.tib_trim.specs.Links.{AreLinks};

use std::alloc::{AllocError, Global};
use tib_grammar::Rule;

/// For each state its first rule, and for each rule the next one of its left state, as positions.
/// The number of rules means that there is none.
#[derive(Drop)]
pub struct Links {
    pub first: Vec<usize>,
    pub next: Vec<usize>,
}

impl Links {
    /// The links of rules over this number of states. Err only if memory is refused. It takes time
    /// and memory in proportion to the rules and the states.
    pub fn new(alloc: Global, rules: &[Rule<u32>], count: usize) -> Result<Links, AllocError>
        requires range { AreInRange count rules.now }
        ensures { IfOk result (AreLinks rules.now count) }
    {
        let none = rules.len();
        let mut first = vec![in alloc; none; count]?;
        let mut next = vec![in alloc; none; none]?;
        let mut n = none;
        while n > 0 {
            n -= 1;
            let state = rules[n].left as usize;
            next[n] = first[state];
            first[state] = n;
        }
        Ok(Links { first, next })
    }
}
