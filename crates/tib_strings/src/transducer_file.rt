// Reads tree-to-string transducer files.
ghost use Rattle.std.specs.Prelude.{◌≡◌, ◌≤◌, ◌<◌, ◌+◌, ◌-◌, ◌^◌, length, IfOk, IfErr};
ghost use Rattle.tib_lex.specs.Limits.{most_bytes};
ghost use Rattle.tib_tree.specs.Grows.{Grows, AddsAll};
ghost use Rattle.tib_transducer_file.specs.Added.{rule_texts};
ghost use Rattle.tib_strings.specs.Range.{AreWithin, AreShaped};
ghost use Rattle.tib_strings.specs.RuleValue.{string_view};
ghost use Rattle.tib_strings.specs.Labelled.{AreLabelled};
ghost use Rattle.tib_strings.specs.TransducerText.{ReadsAs};
ghost use Rattle.tib_strings.specs.FileFaults.{IsCause};

use crate::right::Lists;
use crate::{StringRule, StringTransducer};
use std::alloc::Global;
use tib_cost::Semiring;
use tib_grammar::Names;
use tib_lex::ReadError;
use tib_transducer_file::read_file;
use tib_tree::Labels;

// The transducer of a start and of rules that are in range and have their shape.
fn transducer_over<S: Semiring>(names: Names, rules: Vec<StringRule<u32>>) -> StringTransducer<S>
    requires start { 0 < length names }
    requires range { AreWithin (length names) rules.items }
    requires shaped { AreShaped rules.items }
    requires few { length rules.items ≤ most_bytes }
    ensures names { result.names ≡ names }
    ensures rules { result.rules ≡ rules.items }
{
    match StringTransducer::new(names, rules) {
        Some(transducer) => transducer,
        None => unreachable!(),
    }
}

/// Reads a tree-to-string transducer file. The states are the start and those of the rules,
/// numbered in the order in which they first occur in the file; variables are numbered anew in
/// preorder of each left side. The table of labels grows by just the texts of labels and words that
/// are new, in the order of the file: the labels of a left side in preorder, where a variable has
/// the one that it asks for, and then the words of the list. Where nothing is weighed, any name is
/// taken as a weight, and each rule costs 0.
///
/// A fault names the first line that has one and what is wrong there first: no start (line 1), a
/// bad token, a bad rule, a lone variable on the left, a variable twice on the left, an unknown
/// variable on the right, a weight that isn't whole or is too large, a left side with more than
/// 10,000 nodes or a right side with more than 10,000 tokens. After an error the table may hold
/// texts of some labels of the file, and the texts that it held keep their numbers; `OutOfMemory`
/// says nothing about the file. Worst case: O(b) steps for b bytes, where a look-up by hash counts
/// once.
pub fn read_string_transducer<S: Semiring>(
    alloc: Global,
    bytes: &[u8],
    labels: &mut Labels,
) -> Result<StringTransducer<S>, ReadError>
    requires short { length bytes.now ≤ most_bytes }
    requires room { length labels.old + length bytes.now < 2 ^ 32 - 1 }
    ensures text { IfOk result (λ t. ReadsAs S.SCALE labels.new bytes.now t) }
    ensures labelled { IfOk result (λ t. AreLabelled (length labels.new) t.rules) }
    ensures added { IfOk result (λ t. AddsAll labels.old (rule_texts string_view labels.new t.rules)
        labels.new) }
    ensures fault { IfErr result (λ e. IsCause S.SCALE bytes.now e) }
    ensures labels { Grows labels.old labels.new }
    ensures few { length labels.new ≤ length labels.old + length bytes.now }
{
    match read_file::<S, Lists>(alloc, bytes, labels) {
        Ok(file) => Ok(transducer_over(file.names, file.rules)),
        Err(error) => Err(error),
    }
}
