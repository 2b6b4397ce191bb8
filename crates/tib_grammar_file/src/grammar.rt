// Reads grammar files.
ghost use Rattle.std.specs.Prelude.{◌≡◌, ◌≤◌, ◌<◌, ◌+◌, ◌-◌, ◌^◌, ℕ, List, length, map, IfOk, IfErr};
ghost use Rattle.tib_tree.specs.Grows.{Grows, AddsAll};
ghost use Rattle.tib_grammar.specs.StateName.{AreStateNames};
ghost use Rattle.tib_grammar.specs.Range.{AreInRange};
ghost use Rattle.tib_grammar_file.specs.Added.{AddsRules, rule_texts, KeptByFault};
ghost use Rattle.tib_grammar_file.specs.Built.{IsSource};
ghost use Rattle.tib_grammar_file.specs.Printed.{AreLabelled};
ghost use Rattle.tib_grammar_file.specs.Faults.{IsCause};
ghost use Rattle.tib_grammar_file.specs.Read.{ReadsAs};
ghost use Rattle.tib_grammar_file.specs.Rule.{RuleLine};
ghost use Rattle.tib_grammar_file.specs.Value.{IsGrammarOf};
ghost use Rattle.tib_lex.specs.Limits.{most_bytes};

use crate::raw::RawRules;
use crate::resolve::resolve_rules;
use crate::start::read_raw;
use std::alloc::{AllocError, Global};
use tib_cost::Semiring;
use tib_grammar::{Grammar, Names, Rule};
use tib_lex::ReadError;
use tib_tree::Labels;

// The texts of a table, in order.
fn texts_of(alloc: Global, names: &Labels) -> Result<Vec<Vec<u8>>, AllocError>
    requires { length names.now ≤ 8388609 }
    ensures { IfOk result (λ texts. map (λ text. text.items) texts.items ≡ names.now) }
{
    let count = names.len();
    let mut texts = Vec::with_capacity(alloc, count)?;
    for n in 0..count {
        let text = names.text(n as u32).to_vec(alloc)?;
        texts.push(text)?;
    }
    Ok(texts)
}

/// The texts of a table, which are state names, as names in their order. Err only if memory is
/// refused. Worst case: O(n) steps for n bytes, where a look-up by hash counts once.
pub fn state_names(alloc: Global, names: &Labels) -> Result<Names, AllocError>
    requires sound { AreStateNames names.now }
    requires few { length names.now ≤ 8388609 }
    ensures { IfOk result (λ states. states ≡ names.now) }
{
    let texts = texts_of(alloc, names)?;
    match Names::from_list(alloc, texts)? {
        Some(states) => Ok(states),
        None => unreachable!(),
    }
}

// The grammar of a start and of rules that are in range.
fn grammar_over<S: Semiring>(names: Names, rules: Vec<Rule<u32>>) -> Grammar<S>
    requires start { 0 < length names }
    requires range { AreInRange (length names) rules.items }
    requires few { length rules.items ≤ most_bytes }
    ensures names { result.names ≡ names }
    ensures rules { result.rules ≡ rules.items }
{
    match Grammar::new(names, rules) {
        Some(grammar) => grammar,
        None => unreachable!(),
    }
}

// Resolves leaves into states and labels, and makes the grammar.
fn build<S: Semiring>(
    alloc: Global,
    raw: &RawRules,
    names: Labels,
    texts: &Labels,
    labels: &mut Labels,
) -> Result<Grammar<S>, AllocError>
    requires source { (start : List ℕ) × (lines : List RuleLine)
        × IsSource names texts.now raw.now start lines }
    requires room { length labels.old + length raw.now.nodes.items < 2 ^ 32 - 1 }
    ensures grammar { IfOk result (λ g. (start : List ℕ) (lines : List RuleLine) →
        IsSource names texts.now raw.now start lines → IsGrammarOf labels.new g start lines) }
    ensures added { IfOk result (λ g. AddsRules labels.old g.rules labels.new) }
    ensures few { length labels.new ≤ length labels.old + length raw.now.nodes.items }
    ensures grows { Grows labels.old labels.new }
{
    texts.len();
    let rules = resolve_rules(alloc, raw, &names, texts, labels)?;
    Ok(grammar_over(Names::from_labels(names), rules))
}

/// Reads a grammar file. The states are the start and the left states, numbered in the order of
/// first sight; the texts of all other leaves and of all heads go into the table of labels, which
/// grows by just those that are new, in the order of the file. Where weights are not kept, any name
/// is taken as a weight, and each rule costs 0.
///
/// A fault names the first line that has one and what is wrong there first: no start (line 1), a
/// bad token, a bad rule, a weight that isn't whole or is too large, a right-hand side with more
/// than 10,000 nodes. After a fault the table is as before. `OutOfMemory`, if memory is refused,
/// says nothing of the file, and the table may have grown by some of its labels.
///
/// Worst case: O(b) steps for b bytes, where a name or label that is looked up by its hash counts
/// once.
pub fn read_grammar<S: Semiring>(
    alloc: Global,
    bytes: &[u8],
    labels: &mut Labels,
) -> Result<Grammar<S>, ReadError>
    requires short { length bytes.now ≤ most_bytes }
    requires room { length labels.old + length bytes.now < 2 ^ 32 - 1 }
    ensures text { IfOk result (λ g. ReadsAs S.SCALE labels.new bytes.now g) }
    ensures labelled { IfOk result (λ g. AreLabelled (length labels.new) g.rules) }
    ensures fault { IfErr result (λ e. IsCause S.SCALE bytes.now e) }
    ensures labels { Grows labels.old labels.new }
    ensures added { IfOk result (λ g. AddsAll labels.old (rule_texts labels.new g.rules)
        labels.new) }
    ensures few { length labels.new ≤ length labels.old + length bytes.now }
    ensures kept { IfErr result (λ e. KeptByFault e labels.old labels.new) }
{
    let mut names = Labels::new(alloc);
    let mut texts = Labels::new(alloc);
    match read_raw(alloc, S::SCALE, bytes, &mut names, &mut texts) {
        Ok(raw) => match build(alloc, &raw, names, &texts, labels) {
            Ok(grammar) => Ok(grammar),
            Err(AllocError) => Err(ReadError::OutOfMemory),
        },
        Err(error) => Err(error),
    }
}
