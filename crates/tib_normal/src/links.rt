// The places at which each key occurs in a list of keys.
ghost use Rattle.std.specs.Prelude.{◌≡◌, ℕ, ◌+◌, ◌<◌, ◌≤◌, ◌^◌, IfOk, length};
ghost use Rattle.tib_normal.specs.Links.{AreLinks};

use std::alloc::{AllocError, Global};

/// For each key its first place in a list of keys, and for each place the next one of its key. The
/// length of the list means that there is none.
#[derive(Drop)]
pub struct Links {
    pub first: Vec<u32>,
    pub next: Vec<u32>,
}

impl Links {
    /// The links of some keys. Those that are not below `count` are left out. Err only if memory is
    /// refused. It takes time and memory in proportion to the keys and `count`.
    pub fn new(alloc: Global, keys: &[u32], count: usize) -> Result<Links, AllocError>
        requires few { length keys.now < 2 ^ 32 }
        ensures { IfOk result (AreLinks keys.now count) }
    {
        let none = keys.len() as u32;
        let mut first = vec![in alloc; none; count]?;
        let mut next = vec![in alloc; none; keys.len()]?;
        let mut n = keys.len();
        while n > 0 {
            n -= 1;
            let key = keys[n] as usize;
            if key < count {
                next[n] = first[key];
                first[key] = n as u32;
            }
        }
        Ok(Links { first, next })
    }
}
