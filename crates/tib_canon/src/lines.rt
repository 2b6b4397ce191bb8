// The lines of rules.
ghost use Rattle.tib_cost.specs.declared.Scale.{Scale};
ghost use Rattle.std.specs.Prelude.{◌≡◌, ◌++◌, ◌-◌, ◌<◌, ◌≤◌, ℕ, List, Bool, length, map, take, drop, IfOk, Some, refl};
ghost use Rattle.std.specs.Cmp.{partial_equiv_from_equiv};
ghost use Rattle.std.specs.Cmp.Lexicographic.{slice_cmp};
ghost use Rattle.std.specs.Ordering.{nat_cmp};
ghost use Rattle.std.proofs.Common.{get_or};
ghost use Rattle.tib_lex.specs.Lists.{Each};
ghost use Rattle.tib_grammar.specs.Run.{rule_at};
ghost use Rattle.tib_grammar_file.specs.Printed.{IsRuleWithin, rule_text};
ghost use Rattle.tib_canon.specs.LineOrder.{line_cmp, lines_partial_order, lines_tie, lines_total_order, same_equiv, same_line};
ghost use Rattle.tib_canon.specs.Lines.{IsLineAt, AreTexts};

use std::alloc::{AllocError, Global};
use std::cmp::Ordering;
use tib_cost::Semiring;
use tib_grammar::{Names, Rule};
use tib_grammar_file::print_rule;
use tib_io::{Failed, GrowingSink};
use tib_tree::Labels;

/// What the rule at a position is ordered by: its left state, its line, and the position itself.
#[derive(Drop)]
pub struct Line<'a> {
    /// The left state.
    pub left: u32,
    /// The line of the rule, without the line feed.
    pub text: &'a [u8],
    /// Where the rule is.
    pub position: u32,
}

// The order of two texts, byte by byte. Most lines differ within a few bytes, for which this takes
// a fraction of the steps of the order of slices.
fn compare_texts(one: &[u8], two: &[u8]) -> Ordering
    ensures { result ≡ slice_cmp nat_cmp one.now two.now }
{
    let mut place = 0;
    while place < one.len() && place < two.len() {
        let order = one[place].cmp(&two[place]);
        if order != Ordering::Equal {
            return order;
        }
        place += 1;
    }
    one.len().cmp(&two.len())
}

impl<'a> PartialEq for Line<'a> {
    ghost eq = { same_line };

    ghost laws = { partial_equiv_from_equiv same_equiv };

    fn eq(&self, other: &Line<'a>) -> bool {
        self.left == other.left && (self.text == other.text && self.position == other.position)
    }
}

impl<'a> Eq for Line<'a> {
    ghost laws = { same_equiv };
}

impl<'a> PartialOrd for Line<'a> {
    ghost partial_cmp = { λ x y. Some (line_cmp x y) };

    ghost laws = { lines_partial_order };

    fn partial_cmp(&self, other: &Line<'a>) -> Option<Ordering> {
        Some(self.cmp(other))
    }
}

impl<'a> Ord for Line<'a> {
    ghost cmp = { λ x y. line_cmp x y };

    ghost total = { lines_total_order };

    ghost matches_partial_cmp = { λ x y. refl };

    ghost matches_eq = { lines_tie };

    fn cmp(&self, other: &Line<'a>) -> Ordering {
        match self.left.cmp(&other.left) {
            Ordering::Less => Ordering::Less,
            Ordering::Equal => match compare_texts(self.text, other.text) {
                Ordering::Less => Ordering::Less,
                Ordering::Equal => self.position.cmp(&other.position),
                Ordering::Greater => Ordering::Greater,
            },
            Ordering::Greater => Ordering::Greater,
        }
    }
}

/// The lines of some rules, one after another.
#[derive(Drop)]
pub(crate) struct Texts {
    /// All lines.
    pub sink: GrowingSink,
    /// Where each ends.
    pub ends: Vec<usize>,
}

// Appends the line of a rule.
fn add_line<S: Semiring>(
    sink: &mut GrowingSink,
    rule: &Rule<u32>,
    names: &Names,
    labels: &Labels,
) -> Result<(), AllocError>
    requires { IsRuleWithin names.now labels.now rule.now }
    ensures { IfOk result (λ _. sink.new.bytes ≡ sink.old.bytes ++ rule_text S.SCALE names.now
        labels.now rule.now) }
{
    match print_rule::<S, GrowingSink>(rule, names, labels, sink) {
        Ok(()) => Ok(()),
        Err(Failed) => Err(AllocError),
    }
}

/// The texts of the rules at some positions. Err only if memory is refused.
pub(crate) fn texts_at<S: Semiring>(
    alloc: Global,
    rules: &[Rule<u32>],
    positions: &[u32],
    names: &Names,
    labels: &Labels,
) -> Result<Texts, AllocError>
    requires below { (i : ℕ) → i < length positions.now → get_or positions.now i 0
        < length rules.now }
    requires within { (n : ℕ) → n < length rules.now → IsRuleWithin names.now labels.now
        (rule_at rules.now n) }
    ensures { IfOk result (λ texts. AreTexts S.SCALE names.now labels.now
        (map (rule_at rules.now) positions.now) texts.sink.bytes texts.ends.items) }
{
    let mut sink = GrowingSink::new(alloc);
    let mut ends = Vec::with_capacity(alloc, positions.len())?;
    for position in positions {
        add_line::<S>(&mut sink, &rules[*position as usize], names, labels)?;
        ends.push(sink.bytes().len())?;
    }
    Ok(Texts { sink, ends })
}

// The line from one end to another, without the line feed.
fn line_between<'a>(text: &'a [u8], begin: usize, end: usize) -> &'a [u8]
    requires some { begin < end }
    requires within { end ≤ length text.now }
    ensures { result.now ≡ take (end - 1 - begin) (drop begin text.now) }
{
    &text[begin..end - 1]
}

/// The lines of the rules at some positions, in their texts. Err only if memory is refused.
pub(crate) fn lines_at<'a>(
    alloc: Global,
    rules: &[Rule<u32>],
    positions: &[u32],
    texts: &'a Texts,
) -> Result<Vec<Line<'a>>, AllocError>
    requires below { (i : ℕ) → i < length positions.now → get_or positions.now i 0
        < length rules.now }
    requires texts { (scale : Scale) × (names : List (List ℕ)) × (labels : List (List ℕ))
        × AreTexts scale names labels (map (rule_at rules.now) positions.now) texts.now.sink.bytes
        texts.now.ends.items }
    ensures lines { IfOk result (λ lines. (scale : Scale) (names labels : List (List ℕ))
        → AreTexts scale names labels (map (rule_at rules.now) positions.now) texts.now.sink.bytes
        texts.now.ends.items
        → Each (IsLineAt scale names labels rules.now) lines.items) }
    ensures positions { IfOk result (λ lines. map (λ line. line.position) lines.items
        ≡ positions.now) }
{
    let text = texts.sink.bytes();
    let mut lines = Vec::with_capacity(alloc, positions.len())?;
    let mut begin = 0;
    for n in 0..positions.len() {
        let rule = &rules[positions[n] as usize];
        let _ = rule.cost.get();
        let end = texts.ends[n];
        lines.push(Line {
            left: rule.left,
            text: line_between(text, begin, end),
            position: positions[n],
        })?;
        begin = end;
    }
    Ok(lines)
}
