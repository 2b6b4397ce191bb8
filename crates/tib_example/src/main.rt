//! The crates as a library: a program that reads a grammar and some trees from texts, weighs the
//! trees, and prints the costs. It is among the crates so that it is proved and run with everything
//! else.
#![tactic(auto)]

ghost use Rattle.std.specs.Prelude.{◌≤◌, ◌+◌, length, IfErr, IfOk};
ghost use Rattle.std.specs.List.{AllZip};
ghost use Rattle.std.specs.Thread.{IsSync};
ghost use Rattle.tib_lex.specs.Limits.{most_bytes};
ghost use Rattle.tib_grammar.specs.Series.{IsSeries};
ghost use Rattle.tib_example.specs.Costs.{AreCosts, IsFailure, IsUnweighed};

use std::alloc::Global;
use std::println;
use std::process::ExitCode;
use std::thread::Threads;
use tib_cost::{Cost, MinPlus};
use tib_grammar::Grammar;
use tib_grammar_file::read_grammar;
use tib_lex::ReadError;
use tib_normal::{NormalError, normalize};
use tib_tree::{Labels, Tree, read_trees};
use tib_weigh::weigh_all;

// The cost of a tree that the grammar counts: one for each `s`.
const GRAMMAR: &[u8] = b"q\nq -> s(q) # 1\nq -> zero\n";

const TREES: &[u8] = b"zero\ns(s(zero))\ns(one)\n";

// Why there are no costs.
#[derive(Drop)]
enum Failure {
    Read(ReadError),
    Large,
    OutOfMemory,
}

// The cost that a grammar gives each of these trees.
fn weighed<R: Threads + Sync>(
    rt: &R,
    alloc: Global,
    grammar: &Grammar<MinPlus>,
    trees: &[Tree],
) -> Result<Vec<Option<Cost>>, Failure>
    ensures costs { IfOk result (λ costs. AllZip (λ t v. IsSeries ◌+◌ grammar.now.rules t v)
        trees.now costs.items) }
    ensures failure { IfErr result (IsUnweighed grammar.now) }
{
    let normal = match normalize(alloc, grammar, 1000) {
        Ok(normal) => normal,
        Err(NormalError::TooMany { .. }) => return Err(Failure::Large),
        Err(NormalError::OutOfMemory) => return Err(Failure::OutOfMemory),
    };
    grammar.is_sound();
    match weigh_all(rt, alloc, &normal, trees) {
        Ok(costs) => Ok(costs),
        Err(_) => Err(Failure::OutOfMemory),
    }
}

// The costs of the trees of one text by the grammar of another.
fn costs<R: Threads + Sync>(
    rt: &R,
    alloc: Global,
    grammar: &[u8],
    trees: &[u8],
) -> Result<Vec<Option<Cost>>, Failure>
    requires grammar { length grammar.now ≤ most_bytes }
    requires trees { length trees.now ≤ most_bytes }
    ensures costs { IfOk result (λ costs. AreCosts grammar.now trees.now costs.items) }
    ensures failure { IfErr result (IsFailure grammar.now trees.now) }
{
    let mut labels = Labels::new(alloc);
    let grammar = match read_grammar::<MinPlus>(alloc, grammar, &mut labels) {
        Ok(grammar) => grammar,
        Err(error) => return Err(Failure::Read(error)),
    };
    let trees = match read_trees(alloc, trees, &mut labels) {
        Ok(trees) => trees,
        Err(error) => return Err(Failure::Read(error)),
    };
    weighed(rt, alloc, &grammar, &trees)
}

fn main(rt: HostRuntime) -> ExitCode {
    let Ok(costs) = costs(&rt, rt.alloc(), GRAMMAR, TREES) else {
        return ExitCode::from(1);
    };
    for cost in costs.iter() {
        let _ = match cost {
            Some(cost) => println!(rt; "{}", cost.get()),
            None => println!(rt; "none"),
        };
    }
    ExitCode::from(0)
}
