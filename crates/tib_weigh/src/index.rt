// The rules of a grammar in normal form by label and rank, and then by the states of each child
// place.
ghost use Rattle.std.specs.Prelude.{◌≡◌, ℕ, ◌+◌, ◌-◌, ◌<◌, ◌≤◌, length, IfOk, IfSome, List, []};
ghost use Rattle.tib_lex.specs.Lists.{Each};
ghost use Rattle.tib_grammar.specs.declared.Rule.{Rule};
ghost use Rattle.tib_normal.specs.Rules.{positions_with};
ghost use Rattle.tib_weigh.specs.Buckets.{AreRules};
ghost use Rattle.tib_weigh.specs.Entries.{IsAscending};
ghost use Rattle.tib_weigh.specs.Found.{IsBlank};
ghost use Rattle.tib_weigh.specs.Shapes.{AreTables, IsShape, IsIndex};
ghost use Rattle.tib_weigh.specs.Vectors.{vectors, IsNodeVector, IsVectorOf};
ghost use Rattle.tib_tree.specs.Trees.{none};
ghost use Rattle.tib_grammar.specs.Forms.{AreNormal};
ghost use Rattle.tib_grammar.specs.Range.{AreInRange};

use crate::found::CostsByState;
use crate::node::put_node_vector;
use crate::table::Table;
use crate::trying::{ChildPlace, try_table};
use crate::vector::Entry;
use std::alloc::{AllocError, Global};
use std::collections::HashMap;
use tib_cost::Semiring;
use tib_grammar::{Item, Rule};
use tib_normal::Normal;
use tib_tree::Label;

/// The rules of one label and rank: a table for each child place, and the vector of a leaf.
#[derive(Drop)]
pub(crate) struct Shape {
    tables: Vec<Table>,
    leaf: Vec<Entry>,
}

// The tables of the rules at these positions, one for each child place.
fn tables_of(
    alloc: Global,
    rules: &[Rule<u32>],
    positions: &[u32],
    rank: u32,
    states: u32,
) -> Result<Vec<Table>, AllocError>
    requires normal { AreNormal rules.now }
    requires rules { AreRules rules.now rank positions.now }
    ensures { IfOk result (λ v. AreTables rules.now positions.now rank v.items) }
{
    let mut tables = Vec::new(alloc);
    for place in 0..rank {
        tables.push(Table::new(alloc, rules, positions, place as usize, rank, states)?)?;
    }
    Ok(tables)
}

// The vector of a leaf, and nothing for a rank other than 0.
fn leaf_of<S: Semiring>(
    alloc: Global,
    normal: &Normal<S>,
    label: Label,
    rank: u32,
) -> Result<Vec<Entry>, AllocError>
    ensures { IfOk result (λ v. rank ≡ 0 → IsVectorOf S.product normal.now.rules label none
        v.items) }
{
    let mut leaf = Vec::new(alloc);
    if rank > 0 {
        return Ok(leaf);
    }
    let rules = normal.grammar().rule_list();
    let positions = normal.rules_with(label, 0);
    put_node_vector::<S>(rules, positions, label, 0, &[], &mut leaf)?;
    Ok(leaf)
}

impl Shape {
    fn new<S: Semiring>(
        alloc: Global,
        normal: &Normal<S>,
        label: Label,
        rank: u32,
    ) -> Result<Shape, AllocError>
        ensures { IfOk result (IsShape S.product normal.now.rules label rank) }
    {
        let grammar = normal.grammar();
        let positions = normal.rules_with(label, rank);
        let tables = tables_of(
            alloc,
            grammar.rule_list(),
            positions,
            rank,
            grammar.states(),
        )?;
        let leaf = leaf_of::<S>(alloc, normal, label, rank)?;
        Ok(Shape { tables, leaf })
    }

    /// The vector of a leaf. It takes a step.
    pub(crate) fn leaf(&self) -> &[Entry]
        ensures { result.now ≡ self.now.leaf.items }
    {
        &self.leaf
    }

    // The child place whose states leave the fewest rules, as far as their number says.
    fn best_place(&self, stack: &[Vec<Entry>]) -> usize
        requires some { 0 < length self.now.tables.items }
        requires enough { length self.now.tables.items ≤ length stack.now }
        ensures { result < length self.now.tables.items }
    {
        let mut best = 0;
        let mut least = usize::MAX;
        for place in 0..self.tables.len() {
            let left = self.tables[place].left_by(stack[stack.len() - 1 - place].len());
            if left < least {
                least = left;
                best = place;
            }
        }
        best
    }

    /// Puts the vector of a node with children over the trees on top of the stack into an empty
    /// one. Only the rules are tried that one child can serve. Err only if memory is refused; the
    /// costs found and the vector then hold some of the costs. Worst case: O(r k log s + s) steps
    /// for r rules of this label and rank k over s states.
    pub(crate) fn put_vector<S: Semiring>(
        &self,
        rules: &[Rule<u32>],
        rank: u32,
        stack: &[Vec<Entry>],
        found: &mut CostsByState,
        picked: &mut Vec<Entry>,
        vector: &mut Vec<Entry>,
    ) -> Result<(), AllocError>
        requires normal { AreNormal rules.now }
        requires range { AreInRange (length found.old.costs.items) rules.now }
        requires tables { (f : ℕ) × AreTables rules.now (positions_with f rank rules.now) rank
            self.now.tables.items }
        requires some { 0 < rank }
        requires enough { rank ≤ length stack.now }
        requires ascend { Each IsAscending (vectors stack.now) }
        requires blank { IsBlank found.old }
        requires empty { vector.old.items ≡ [] }
        ensures vector { IfOk result (λ _. (f : ℕ) →
            AreTables rules.now (positions_with f rank rules.now) rank self.now.tables.items →
            IsNodeVector S.product rules.now f rank (vectors stack.now) vector.new.items) }
        ensures blank { IfOk result (λ _. IsBlank found.new) }
        ensures long { IfOk result (λ _. length found.new.costs.items
            ≡ length found.old.costs.items) }
    {
        let place = self.best_place(stack);
        let at = ChildPlace {
            rules,
            stack,
            place,
            rank,
        };
        try_table::<S>(found, picked, &self.tables[place], at)?;
        found.move_into(vector)
    }
}

/// The rules of a grammar by label and rank.
#[derive(Drop)]
pub(crate) struct Index {
    shapes: HashMap<(Label, u32), Shape>,
}

impl Index {
    /// The empty index. It takes no memory.
    pub(crate) fn empty(alloc: Global) -> Index
        ensures { (product : ℕ → ℕ → ℕ) → (rules : List (Rule ℕ)) → IsIndex product rules result }
    {
        Index {
            shapes: HashMap::new(alloc),
        }
    }

    // Adds what there is for a label and a rank.
    fn add<S: Semiring>(
        &mut self,
        alloc: Global,
        normal: &Normal<S>,
        label: Label,
        rank: u32,
    ) -> Result<(), AllocError>
        requires { IsIndex S.product normal.now.rules self.old }
        ensures { IfOk result (λ _. IsIndex S.product normal.now.rules self.new) }
    {
        if self.shapes.get(&(label, rank)).is_some() {
            return Ok(());
        }
        let shape = Shape::new(alloc, normal, label, rank)?;
        self.shapes.insert((label, rank), shape)?;
        Ok(())
    }

    /// The index of all rules of a grammar. Err only if memory is refused. Worst case: time and
    /// memory in proportion to the items of the rules.
    pub(crate) fn new<S: Semiring>(alloc: Global, normal: &Normal<S>) -> Result<Index, AllocError>
        ensures { IfOk result (IsIndex S.product normal.now.rules) }
    {
        let mut index = Index::empty(alloc);
        for rule in normal.grammar().rule_list() {
            if let Some(Item::Label { label, rank }) = rule.right.items().first() {
                index.add(alloc, normal, *label, *rank)?;
            }
        }
        Ok(index)
    }

    /// What there is for a label and a rank. It takes one look-up by hash.
    pub(crate) fn find(&self, label: Label, rank: u32) -> Option<&Shape>
        ensures { (product : ℕ → ℕ → ℕ) → (rules : List (Rule ℕ)) → IsIndex product rules self.now →
            IfSome result (λ s. IsShape product rules label rank s.now) }
    {
        self.shapes.get(&(label, rank))
    }
}
