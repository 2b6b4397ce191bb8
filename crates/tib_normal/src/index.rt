// The rules of a grammar in normal form by their left states, and by the labels and ranks of their
// right sides.
ghost use Rattle.std.specs.Prelude.{◌≡◌, ℕ, ◌+◌, ◌<◌, ◌≤◌, ◌^◌, IsTrue, IfOk, OnOk, OnErr, length, List, [], ◌∷◌, ◌++◌, if◌then◌else◌};
ghost use Rattle.tib_grammar.specs.Forms.{AreNormal, IsNormalSide};
ghost use Rattle.tib_grammar.specs.Run.{rule_at};
ghost use Rattle.tib_normal.specs.Rules.{is_over, positions_with, rules_from};
ghost use Rattle.tib_normal.specs.Index.{IsStart, AreStarts, held, AreNumbered, same_shape};
ghost use Rattle.tib_normal.specs.IsIndex.{IsIndex};
ghost use Rattle.tib_grammar.specs.declared.Rule.{Rule};
ghost use Rattle.tib_lex.specs.Lists.{Ascends};
ghost use Rattle.tib_grammar.specs.Range.{AreInRange};

use std::alloc::{AllocError, Global};
use std::collections::HashMap;
use tib_grammar::Rule;
use tib_tree::Label;

/// A label and a rank.
pub type Shape = (Label, u32);

/// The label and rank of a rule's right side.
fn shape_of(rule: &Rule<u32>) -> Shape
    requires { IsNormalSide rule.now.right }
    ensures { (f n : ℕ) → is_over f n rule.now ≡ same_shape result (f, n) }
{
    rule.root()
}

/// Adds a position after those of its label and rank.
fn add(
    alloc: Global,
    shapes: &mut HashMap<Shape, u32>,
    buckets: &mut Vec<Vec<u32>>,
    shape: Shape,
    position: u32,
) -> Result<(), AllocError>
    requires numbered { AreNumbered shapes.old buckets.old.items }
    requires few { length buckets.old.items ≤ position }
    ensures numbered { AreNumbered shapes.new buckets.new.items }
    ensures added { OnOk result ((s : ℕ × ℕ) →
        held shapes.new buckets.new.items s
        ≡ (if same_shape shape s then held shapes.old buckets.old.items s ++ position ∷ []
        else held shapes.old buckets.old.items s)) }
    ensures few { length buckets.new.items ≤ position + 1 }
{
    if let Some(number) = shapes.get(&shape).copied() {
        buckets[number as usize].push(position)?;
        return Ok(());
    }
    let mut bucket = Vec::new(alloc);
    bucket.push(position)?;
    let number = buckets.len() as u32;
    buckets.push(bucket)?;
    shapes.insert(shape, number)?;
    Ok(())
}

/// The positions of the rules of each label and rank, and where the rules of each state begin.
#[derive(Drop)]
pub struct Index {
    shapes: HashMap<Shape, u32>,
    buckets: Vec<Vec<u32>>,
    starts: Vec<u32>,
}

/// The first position from `n` on whose rule has a left state of at least `q`.
fn start_of(rules: &[Rule<u32>], n: usize, q: u32) -> usize
    requires within { n ≤ length rules.now }
    requires before { (m : ℕ) → m < n → (rule_at rules.now m).left < q }
    requires ascends { Ascends (λ r s. r.left ≤ s.left) rules.now }
    ensures { IsStart rules.now q result }
{
    let mut place = n;
    while place < rules.len() && rules[place].left < q {
        place += 1;
    }
    place
}

/// The positions at which the rules of each state begin, and the number of rules.
fn starts_of(alloc: Global, rules: &[Rule<u32>], states: u32) -> Result<Vec<u32>, AllocError>
    requires few { length rules.now < 2 ^ 32 }
    requires range { AreInRange states rules.now }
    requires ascends { Ascends (λ r s. r.left ≤ s.left) rules.now }
    ensures { IfOk result (λ starts. AreStarts rules.now (states + 1) starts.items) }
{
    let mut starts = Vec::with_capacity(alloc, states as usize + 1)?;
    let mut place = 0;
    for q in 0..states {
        place = start_of(rules, place, q);
        starts.push(place as u32)?;
    }
    starts.push(rules.len() as u32)?;
    Ok(starts)
}

impl Index {
    /// Indexes rules over this number of states. Err only if memory is refused. It takes one pass
    /// over the rules and one over the states.
    pub fn new(alloc: Global, rules: &[Rule<u32>], states: u32) -> Result<Index, AllocError>
        requires few { length rules.now < 2 ^ 32 }
        requires normal { AreNormal rules.now }
        requires range { AreInRange states rules.now }
        requires ascends { Ascends (λ r s. r.left ≤ s.left) rules.now }
        ensures { IfOk result (IsIndex rules.now states) }
    {
        let starts = starts_of(alloc, rules, states)?;
        let mut shapes = HashMap::new(alloc);
        let mut buckets = Vec::new(alloc);
        for (n, rule) in rules.iter().enumerate() {
            add(alloc, &mut shapes, &mut buckets, shape_of(rule), n as u32)?;
        }
        Ok(Index {
            shapes,
            buckets,
            starts,
        })
    }

    /// The positions of the rules of a label and a rank. It takes no memory. Cost: one look-up by
    /// hash.
    pub fn find(&self, label: Label, rank: u32) -> &[u32]
        ensures { (rules : List (Rule ℕ)) → (states : ℕ) → IsIndex rules states self.now →
            result.now ≡ positions_with label rank rules }
    {
        match self.shapes.get(&(label, rank)) {
            Some(number) => {
                let number = *number as usize;
                if number < self.buckets.len() {
                    &self.buckets[number]
                } else {
                    &[]
                }
            }
            None => &[],
        }
    }

    /// The rules of a state among those of the index. It takes no memory and one step.
    pub fn rules_of<'a>(&self, rules: &'a [Rule<u32>], states: u32, state: u32) -> &'a [Rule<u32>]
        requires index { IsIndex rules.now states self.now }
        requires below { state < states }
        ensures { result.now ≡ rules_from state rules.now }
    {
        let start = self.starts[state as usize] as usize;
        let end = self.starts[state as usize + 1] as usize;
        &rules[start..end]
    }
}
