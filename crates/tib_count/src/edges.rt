// Which states lead to which.
ghost use Rattle.std.specs.Prelude.{IfOk};
ghost use Rattle.tib_count.specs.Edges.{AreEdges};

use std::alloc::{AllocError, Global};
use tib_grammar::Rule;
use tib_inside::add_side;

/// For each state in a right-hand side, rule by rule, the left state of the rule and that state.
#[derive(Drop)]
pub struct Edges {
    pub froms: Vec<u32>,
    pub tos: Vec<u32>,
}

impl Edges {
    /// The edges of some rules. Err only if memory is refused. Cost: one pass over the right-hand
    /// sides.
    pub fn new(alloc: Global, rules: &[Rule<u32>]) -> Result<Edges, AllocError>
        ensures { IfOk result (AreEdges rules.now) }
    {
        let mut froms = Vec::new(alloc);
        let mut tos = Vec::new(alloc);
        for rule in rules {
            add_side(rule, &mut tos)?;
            froms.resize(tos.len(), rule.left)?;
        }
        Ok(Edges { froms, tos })
    }
}
