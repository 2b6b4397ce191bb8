// What the words ask for.
ghost use Rattle.std.specs.Prelude.{◌≡◌};
ghost use Rattle.tib_command.specs.declared.job.CommandError.TheVariants.{OutOfMemory};

use std::alloc::AllocError;
use thiserror::Error;

/// How weights are read and combined.
#[derive(Debug, Clone, Copy, PartialEq, Eq)]
pub enum Mode {
    /// The least sum of weights.
    MinPlus,
    /// The least greatest weight.
    Bottleneck,
    /// The greatest least weight: of two weights the lesser counts, and the greater is better.
    Widest,
    /// Whether there is a run; any name is a weight, and none is kept.
    Boolean,
}

/// What is done with the files.
#[derive(Debug, Clone, Copy, PartialEq, Eq)]
pub enum Operation {
    /// Each tree of the second file with its cost by the grammar of the first.
    Weigh,
    /// Each state of a grammar with its inside cost, the least cost of a run from it.
    Inside,
    /// The canonical form of a grammar's normal form.
    Normal,
    /// The cheapest distinct trees of a grammar, each with its cost, as many as asked for.
    KBest,
    /// The canonical grammar of the trees that two grammars have, at the products of their costs.
    Intersect,
    /// The canonical grammar of the trees that either of two grammars has, at the lesser cost.
    Union,
    /// The canonical grammar of the trees of a grammar that have no run in another, at their costs.
    Difference,
    /// The canonical grammar of the trees into which a transducer turns those of a grammar, at the
    /// least products of both costs.
    Forward,
    /// The canonical grammar of the trees that a transducer turns into those of a grammar, at the
    /// least products of both costs.
    Backward,
    /// The canonical transducer that does what the first and then the second does, at the least
    /// products of both costs.
    Compose,
    /// The canonical grammar of all outputs of a transducer on the one tree of a file, each at its
    /// cost.
    Image,
    /// The canonical grammar of the trees that a tree-to-string transducer turns into the one
    /// string of a file, each at its cost.
    Parse,
    /// Whether two grammars have the same trees, and else the least tree that one of them alone
    /// has.
    Compare,
    /// The canonical grammar in deterministic form with the series of a grammar.
    Determinize,
    /// Which classes a transducer is of, and which rule decides.
    Check,
    /// The canonical form of the part of a grammar that stays within a beam of its cheapest tree.
    Prune,
    /// The rules of a grammar that stand in a complete run, as the file has them.
    Trim,
    /// The same rules, each at the least cost of a complete run in which it stands.
    Through,
    /// How many states and rules of a grammar stand in a complete run, and how many runs and trees
    /// it has.
    Count,
    /// The transducer that turns each derivation of a grammar, a tree of numbers of rules, into the
    /// tree that it yields.
    Runs,
    /// The transducer that turns the outputs of a transducer into their inputs, rule by rule.
    Invert,
    /// The canonical grammar of the trees that a transducer takes, each at the least cost over all
    /// its outputs.
    Domain,
    /// The determinization of a grammar that is made for a number: its size, and its cheapest tree.
    Demo,
}

/// What the words ask for.
#[derive(Drop)]
pub struct Job {
    /// How weights are read and combined.
    pub mode: Mode,
    /// How many trees are listed at most, from 1 to 10,000.
    pub k: u32,
    /// How many workers, from 1 to 16.
    pub workers: u32,
    /// How many parts a constructed object may have, from 1 to 20,000,000.
    pub limit: u64,
    /// How far above the cheapest tree what is kept may cost, at most 10^15.
    pub beam: u64,
    /// What is done with the files.
    pub operation: Operation,
    /// The names of the files, as many as the operation takes, none empty.
    pub files: Vec<String>,
    /// The number that `demo` is asked for, from 1 to 16, and 0 for every other operation.
    pub demo: u32,
}

/// Why the words gave no job.
#[derive(Debug, Clone, Copy, PartialEq, Eq, Error)]
pub enum CommandError {
    /// The words are not in the word language.
    #[error("the words are no command")]
    Usage,
    /// Memory was refused.
    #[error("out of memory")]
    OutOfMemory,
}

impl From<AllocError> for CommandError {
    ghost from_gives = { λ _ e. e ≡ OutOfMemory };

    fn from(_: AllocError) -> CommandError {
        CommandError::OutOfMemory
    }
}
