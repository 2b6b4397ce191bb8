// Reads transducer files with any kind of right sides.
ghost use Rattle.std.specs.Prelude.{◌≤◌, ◌<◌, ◌+◌, ◌-◌, ◌^◌, length, IfOk, IfErr};
ghost use Rattle.tib_lex.specs.Limits.{most_bytes};
ghost use Rattle.tib_tree.specs.Grows.{Grows, AddsAll};
ghost use Rattle.tib_transducer_file.specs.Added.{rule_texts};
ghost use Rattle.tib_transducer_file.specs.FileHeld.{FileReadBy};
ghost use Rattle.tib_transducer_file.specs.Faults.{IsCauseBy};
ghost use Rattle.tib_transducer_file.specs.Value.{IsRuleBy};

use crate::right::RightReader;
use crate::rules::read_rules;
use crate::start::find_start;
use std::alloc::{AllocError, Global};
use tib_cost::Semiring;
use tib_grammar::Names;
use tib_grammar_file::state_names;
use tib_lex::ReadError;
use tib_tree::Labels;

/// What a file of a transducer holds: its states, the start first, and its rules.
#[derive(Drop)]
pub struct FileRules<T> {
    /// The names of the states.
    pub names: Names,
    /// The rules, in the order of the file.
    pub rules: Vec<T>,
}

/// Reads a file of a transducer. The states are the start and those of the rules, each once, in the
/// order in which they first occur in the file. The table of labels grows by just the texts of
/// labels that are new, rule by rule: those of the left side and then those of the right side.
///
/// A fault names the first line that has one and what is wrong there first, as `read_transducer`
/// lists them. A right side is bad where its reader refuses the tokens, and too large where it has
/// more than 10,000 items. `OutOfMemory`, if memory is refused, says nothing about the file. After
/// an error the table may hold texts of some labels of the file, and the texts that it held keep
/// their numbers. Worst case: O(b) steps for b bytes, where a look-up by hash counts once.
pub fn read_file<S: Semiring, R: RightReader>(
    alloc: Global,
    bytes: &[u8],
    labels: &mut Labels,
) -> Result<FileRules<R::Rule>, ReadError>
    requires short { length bytes.now ≤ most_bytes }
    requires room { length labels.old + length bytes.now < 2 ^ 32 - 1 }
    ensures file { IfOk result (λ f. FileReadBy R.spells (IsRuleBy R.view) S.SCALE bytes.now
        f.names labels.new f.rules.items) }
    ensures few_rules { IfOk result (λ f. length f.rules.items ≤ length bytes.now) }
    ensures added { IfOk result (λ f. AddsAll labels.old
        (rule_texts R.view labels.new f.rules.items) labels.new) }
    ensures fault { IfErr result (λ e. IsCauseBy R.spells S.SCALE bytes.now e) }
    ensures labels { Grows labels.old labels.new }
    ensures few { length labels.new ≤ length labels.old + length bytes.now }
{
    let mut names = Labels::new(alloc);
    let begun = match find_start(alloc, bytes, &mut names) {
        Ok(begun) => begun,
        Err(error) => return Err(error),
    };
    match read_rules::<R>(
        alloc,
        S::SCALE,
        bytes,
        begun.at,
        begun.number,
        &mut names,
        labels,
    ) {
        Ok(rules) => match state_names(alloc, &names) {
            Ok(states) => Ok(FileRules {
                names: states,
                rules,
            }),
            Err(AllocError) => Err(ReadError::OutOfMemory),
        },
        Err(error) => Err(error),
    }
}
