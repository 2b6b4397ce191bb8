// The vector of a node, over the vectors of its children.
ghost use Rattle.std.specs.Prelude.{◌≡◌, ℕ, ◌+◌, ◌-◌, ◌<◌, ◌≤◌, [], length, map, IfOk, None, Some, nat_eq, if◌then◌else◌, get_or};
ghost use Rattle.tib_cost.specs.Least.{lesser as lesser_of, times as times_of};
ghost use Rattle.tib_lex.specs.Lists.{Ascends, Each};
ghost use Rattle.tib_tree.specs.Trees.{count};
ghost use Rattle.tib_grammar.specs.Forms.{AreNormal, IsNormalSide};
ghost use Rattle.tib_grammar.specs.Sides.{holes as holes_of};
ghost use Rattle.tib_normal.specs.Rules.{positions_with};
ghost use Rattle.tib_weigh.specs.Entries.{cost_in, EndsBy, IsAscending};
ghost use Rattle.tib_weigh.specs.Vectors.{times_all, vectors, IsNodeVector};
ghost use Rattle.tib_grammar.specs.Items.{state_in};

use crate::vector::{Entry, add_cost, cost_at};
use std::alloc::AllocError;
use tib_cost::{Cost, Semiring};
use tib_grammar::{Item, Rule};
use tib_tree::Label;

// The product of two costs.
fn times<S: Semiring>(a: Option<Cost>, b: Option<Cost>) -> Option<Cost>
    ensures { result ≡ times_of S.product a b }
{
    match (a, b) {
        (Some(x), Some(y)) => S::times(x, y),
        _ => None,
    }
}

// The product of the costs of the last trees of the stack at the states of the holes. It ends at
// the first state that has no cost.
fn product_of<S: Semiring>(holes: &[Item<u32>], stack: &[Vec<Entry>]) -> Option<Cost>
    requires enough { length holes.now ≤ length stack.now }
    requires ascend { Each IsAscending (vectors stack.now) }
    ensures { result ≡ times_all S.product (map state_in holes.now) (vectors stack.now) }
{
    let mut product = S::one();
    let mut i = holes.len();
    while i > 0 {
        i -= 1;
        let Some(cost) = cost_at(&stack[stack.len() - 1 - i], holes[i].state()) else {
            return None;
        };
        let Some(more) = S::times(cost, product) else {
            return None;
        };
        product = more;
    }
    Some(product)
}

// Adds the costs of runs that begin with a rule.
fn add_rule<S: Semiring>(
    rule: &Rule<u32>,
    stack: &[Vec<Entry>],
    vector: &mut Vec<Entry>,
) -> Result<(), AllocError>
    requires normal { IsNormalSide rule.now.right }
    requires enough { count rule.now.right.kids ≤ length stack.now }
    requires ascend { Each IsAscending (vectors stack.now) }
    requires ascends { IsAscending vector.old.items }
    requires last { EndsBy rule.now.left vector.old.items }
    ensures ascends { IfOk result (λ _. IsAscending vector.new.items) }
    ensures last { IfOk result (λ _. EndsBy rule.now.left vector.new.items) }
    ensures costs { IfOk result (λ _. (q : ℕ) → cost_in vector.new.items q
        ≡ (if nat_eq rule.now.left q
        then lesser_of (cost_in vector.old.items q) (times_of S.product (Some rule.now.cost)
        (times_all S.product (holes_of rule.now.right.kids) (vectors stack.now)))
        else cost_in vector.old.items q)) }
{
    match times::<S>(Some(rule.cost), product_of::<S>(rule.states_below(), stack)) {
        Some(cost) => add_cost(vector, rule.left, cost),
        None => Ok(()),
    }
}

/// Puts the vector of a node of a label and a rank over the trees on top of the stack into an empty
/// one. The positions are those of all rules of this label and rank. Err only if memory is refused;
/// the vector then has the costs of the rules before. Worst case: O(r k log s) steps for r
/// positions of rules of rank k over s states.
pub(crate) fn put_node_vector<S: Semiring>(
    rules: &[Rule<u32>],
    positions: &[u32],
    label: Label,
    rank: u32,
    stack: &[Vec<Entry>],
    vector: &mut Vec<Entry>,
) -> Result<(), AllocError>
    requires normal { AreNormal rules.now }
    requires ascending { Ascends (λ r s. r.left ≤ s.left) rules.now }
    requires positions { positions.now ≡ positions_with label rank rules.now }
    requires enough { rank ≤ length stack.now }
    requires ascend { Each IsAscending (vectors stack.now) }
    requires empty { vector.old.items ≡ [] }
    ensures { IfOk result (λ _. IsNodeVector S.product rules.now label rank (vectors stack.now)
        vector.new.items) }
{
    for position in positions {
        add_rule::<S>(&rules[*position as usize], stack, vector)?;
    }
    Ok(())
}
