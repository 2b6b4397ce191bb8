// `weigh`: each tree of the second file with its cost by the grammar of the first.
ghost use Rattle.std.specs.Prelude.{◌≡◌, length, IfErr, IfOk};
ghost use Rattle.std.specs.List.{AllZip};
ghost use Rattle.tib_grammar.specs.Series.{IsSeries};
ghost use Rattle.tib_operations.specs.Made.{IsLimit, IsMadeFault};
ghost use Rattle.tib_operations.specs.Weigh.{weigh_makes};

use crate::forms::normal_of;
use std::alloc::Global;
use std::thread::Threads;
use tib_cost::{Cost, Semiring};
use tib_grammar::Grammar;
use tib_normal::Normal;
use tib_operations::Status;
use tib_tree::Tree;
use tib_weigh::weigh_all;

// The costs of the trees by a grammar in normal form.
fn costs_by<S: Semiring + Sync, R: Threads + Sync>(
    rt: &R,
    alloc: Global,
    normal: &Normal<S>,
    trees: &[Tree],
) -> Result<Vec<Option<Cost>>, Status>
    ensures series { IfOk result (λ costs. AllZip (λ t v. IsSeries S.product normal.now.rules t v)
        trees.now costs.items) }
    ensures err { IfErr result (λ s. s ≡ Status.OutOfMemory) }
{
    match weigh_all::<S, R>(rt, alloc, normal, trees) {
        Ok(costs) => Ok(costs),
        Err(_) => Err(Status::OutOfMemory),
    }
}

/// The costs of the trees by the grammar, which is brought into normal form. `TooMany` only where
/// that has more parts than the limit, otherwise `OutOfMemory`. Threads share the trees, at most 32
/// processors with four pieces each; the number of workers of a job plays no part. The time is that
/// of the normal form, and then of the rules that match at each node.
pub fn costs_of<S: Semiring + Sync + Drop, R: Threads + Sync>(
    rt: &R,
    alloc: Global,
    grammar: &Grammar<S>,
    trees: &[Tree],
    limit: u64,
) -> Result<Vec<Option<Cost>>, Status>
    requires { IsLimit limit }
    ensures costs { IfOk result (λ costs. length costs.items ≡ length trees.now) }
    ensures weights { IfOk result (λ costs. AllZip (λ t v. IsSeries S.product grammar.now.rules t v)
        trees.now costs.items) }
    ensures within { IfOk result (λ _. (weigh_makes S.product limit grammar.now).within) }
    ensures err { IfErr result (IsMadeFault (weigh_makes S.product limit grammar.now).more limit) }
{
    grammar.is_sound();
    let normal = match normal_of::<S>(alloc, grammar, limit) {
        Ok(normal) => normal,
        Err(status) => return Err(status),
    };
    costs_by::<S, R>(rt, alloc, &normal, trees)
}
