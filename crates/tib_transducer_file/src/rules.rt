// The rules of a file, with any kind of right sides.
ghost use Rattle.std.specs.Prelude.{◌≤◌, ◌<◌, ◌+◌, ◌-◌, ◌^◌, length, drop, IfOk};
ghost use Rattle.indexmap.specs.IndexSet.{keys};
ghost use Rattle.tib_lex.specs.Limits.{most_bytes};
ghost use Rattle.tib_cost.specs.declared.Scale.{Scale};
ghost use Rattle.tib_lex.specs.Lines.{lines_of, each_line, HasNoFeed};
ghost use Rattle.tib_tree.specs.Grows.{Grows};
ghost use Rattle.tib_transducer_file.specs.Rule.{rule_line_by, rule_line_of};
ghost use Rattle.tib_transducer_file.specs.Value.{IsRuleBy};
ghost use Rattle.tib_transducer_file.specs.Found.{FoundIn};
ghost use Rattle.tib_transducer_file.specs.Added.{AddsLabels};
ghost use Rattle.tib_transducer_file.specs.Built.{AddsLine, AddsStates, AreFileRules};
ghost use Rattle.tib_transducer_file.specs.Reader.{IsFoundBy, IsGood, IsGoodSource, IsRightAt, IsSourceBy, source_parts};

use crate::parts::{RootAndWeight, check_variables, find_parts};
use crate::pieces::read_pieces;
use crate::right::RightReader;
use crate::sides::{read_left, right_nodes};
use indexmap::IndexSet;
use std::alloc::{AllocError, Global};
use tib_cost::{Cost, Scale};
use tib_grammar_file::{read_cost, read_name};
use tib_lex::{FaultKind, LineError, ReadError, Token, file_error, line_bytes, next_line};
use tib_tree::{Labels, MOST_NODES, Place, Reader};

// Reads rule lines of a transducer file, with memory that is reused for each.
#[derive(Drop)]
struct RuleReader<R> {
    pub tokens: Vec<Token>,
    pub words: Vec<Token>,
    pub left: Reader,
    pub right: R,
    pub variables: IndexSet<u32>,
    pub text: Vec<u8>,
    pub alloc: Global,
}

// What was read of a rule line: the line, the places of both sides, the last one first, and the
// tokens of the root and of the weight.
#[derive(Drop)]
struct RuleSource<'a> {
    pub line: &'a [u8],
    pub left: &'a [Place],
    pub right: &'a [Place],
    pub found: RootAndWeight,
}

// The rule of what was read of a line.
fn build<R: RightReader>(
    alloc: Global,
    source: &RuleSource<'_>,
    cost: Cost,
    variables: &IndexSet<u32>,
    names: &mut Labels,
    labels: &mut Labels,
    text: &mut Vec<u8>,
) -> Result<R::Rule, AllocError>
    requires found { IsSourceBy R.reads (IsRightAt R.is_whole R.is_node) source.now }
    requires good { (scale : Scale) × IsGoodSource scale source.now (keys variables.now) cost }
    requires plain { HasNoFeed source.now.line.now }
    requires names { length names.old + length source.now.line.now < 2 ^ 32 - 1 }
    requires labels { length labels.old + length source.now.line.now < 2 ^ 32 - 1 }
    ensures rule { IfOk result (λ r. IsRuleBy R.view names.new labels.new r
        (rule_line_of (source_parts source.now) cost)) }
    ensures adds { IfOk result (λ _. AddsStates names.old (source_parts source.now) names.new) }
    ensures texts { IfOk result (λ _. AddsLabels labels.old (source_parts source.now) labels.new) }
    ensures names { Grows names.old names.new }
    ensures labels { Grows labels.old labels.new }
    ensures few_names { length names.new ≤ length names.old + length source.now.line.now }
    ensures few_labels { length labels.new ≤ length labels.old + length source.now.line.now }
{
    let line = source.line;
    let root = source.found.root;
    let state = read_name(line, root.state, names, text)?;
    let left = read_left(alloc, line, source.left, root, labels, text)?;
    let nodes = right_nodes::<R>(alloc, line, source.right, variables, names, labels, text)?;
    Ok(R::rule(state, left, nodes, cost))
}

// The cost of a rule whose variables are well used and whose sides are not too large, and then its
// variables are those of its left side; else its first fault.
fn check(
    scale: Scale,
    source: &RuleSource<'_>,
    variables: &mut IndexSet<u32>,
    text: &mut Vec<u8>,
) -> Result<Cost, LineError>
    requires { FoundIn source.now.line.now source.now.left.now source.now.right.now
        source.now.found }
    ensures { IsGood scale (source_parts source.now) (keys variables.new) source.now.left.now
        source.now.right.now result }
{
    let line = source.line;
    match check_variables(
        line,
        source.left,
        source.right,
        source.found.root,
        variables,
    ) {
        Ok(()) => {}
        Err(error) => return Err(error),
    }
    let cost = match read_cost(scale, line, source.found.weight, text) {
        Ok(cost) => cost,
        Err(error) => return Err(error),
    };
    if source.left.len() > MOST_NODES {
        return Err(LineError::Fault(FaultKind::TooManyNodes));
    }
    if source.right.len() > MOST_NODES {
        return Err(LineError::Fault(FaultKind::TooManyNodes));
    }
    Ok(cost)
}

impl<R: RightReader> RuleReader<R> {
    fn new(alloc: Global) -> RuleReader<R> {
        RuleReader {
            tokens: Vec::new(alloc),
            words: Vec::new(alloc),
            left: Reader::new(alloc),
            right: R::new(alloc),
            variables: IndexSet::new(alloc),
            text: Vec::new(alloc),
            alloc,
        }
    }

    /// What is found in a line, if it has tokens.
    fn find(&mut self, line: &[u8]) -> Result<Option<RootAndWeight>, LineError>
        requires { length line.now ≤ most_bytes }
        ensures { IsFoundBy R.reads (IsRightAt R.is_whole R.is_node) line.now
            self.new.left.places.items (R.places_of self.new.right) result }
    {
        if !read_pieces(line, &mut self.tokens)? {
            return Err(LineError::Fault(FaultKind::BadToken));
        }
        if self.tokens.is_empty() {
            return Ok(None);
        }
        match find_parts(
            line,
            &self.tokens,
            &mut self.words,
            &mut self.left,
            &mut self.right,
        )? {
            Some(found) => Ok(Some(found)),
            None => Err(LineError::Fault(FaultKind::BadRule)),
        }
    }

    /// Adds the rule of a line, if it has tokens.
    fn add_line(
        &mut self,
        scale: Scale,
        line: &[u8],
        names: &mut Labels,
        labels: &mut Labels,
        rules: &mut Vec<R::Rule>,
    ) -> Result<(), LineError>
        requires short { length line.now ≤ most_bytes }
        requires plain { HasNoFeed line.now }
        requires names { length names.old + length line.now < 2 ^ 32 - 1 }
        requires labels { length labels.old + length line.now < 2 ^ 32 - 1 }
        ensures line { AddsLine (IsRuleBy R.view) names.old names.new labels.old labels.new
            rules.old.items rules.new.items result (rule_line_by R.reads scale line.now) }
        ensures names { Grows names.old names.new }
        ensures labels { Grows labels.old labels.new }
        ensures few_names { length names.new ≤ length names.old + length line.now }
        ensures few_labels { length labels.new ≤ length labels.old + length line.now }
    {
        let found = match self.find(line) {
            Ok(Some(found)) => found,
            Ok(None) => return Ok(()),
            Err(error) => return Err(error),
        };
        let source = RuleSource {
            line,
            left: &self.left.places,
            right: self.right.places(),
            found,
        };
        let cost = match check(scale, &source, &mut self.variables, &mut self.text) {
            Ok(cost) => cost,
            Err(error) => return Err(error),
        };
        let rule = build::<R>(
            self.alloc,
            &source,
            cost,
            &self.variables,
            names,
            labels,
            &mut self.text,
        )?;
        match rules.push(rule) {
            Ok(()) => Ok(()),
            Err(_) => Err(LineError::OutOfMemory),
        }
    }
}

/// The rules from a place of a file on, where a line of this number begins. The texts of states and
/// labels go into the tables. A fault is the first of these lines. It takes time in proportion to
/// the rest of the file.
pub(crate) fn read_rules<R: RightReader>(
    alloc: Global,
    scale: Scale,
    bytes: &[u8],
    start: u32,
    first: u32,
    names: &mut Labels,
    labels: &mut Labels,
) -> Result<Vec<R::Rule>, ReadError>
    requires short { length bytes.now ≤ most_bytes }
    requires place { start ≤ length bytes.now }
    requires number { first ≤ start + 1 }
    requires names { length names.old + (length bytes.now - start) < 2 ^ 32 - 1 }
    requires labels { length labels.old + (length bytes.now - start) < 2 ^ 32 - 1 }
    ensures rules { AreFileRules (IsRuleBy R.view) names.old names.new labels.old labels.new
        result (each_line (rule_line_by R.reads scale) first (lines_of (drop start bytes.now))) }
    ensures labels { Grows labels.old labels.new }
    ensures few_names { length names.new ≤ length names.old + (length bytes.now - start) }
    ensures few_labels { length labels.new ≤ length labels.old + (length bytes.now - start) }
    ensures few_rules { IfOk result (λ rules. length rules.items ≤ length bytes.now) }
{
    let mut reader: RuleReader<R> = RuleReader::new(alloc);
    let mut rules = Vec::new(alloc);
    let mut at = start;
    let mut number = first;
    while let Some(line) = next_line(bytes, number, at) {
        match reader.add_line(scale, line_bytes(bytes, line), names, labels, &mut rules) {
            Ok(()) => {}
            Err(error) => return Err(file_error(line.number, error)),
        }
        at = line.next;
        number += 1;
    }
    Ok(rules)
}
