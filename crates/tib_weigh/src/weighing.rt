// The cost of a tree, and of many.
ghost use Rattle.std.specs.Prelude.{◌≡◌, ℕ, ◌+◌, ◌-◌, ◌<◌, ◌≤◌, ◌^◌, length, take, IfOk, IfSome, vec_len, []};
ghost use Rattle.tib_grammar.specs.Series.{IsSeries};
ghost use Rattle.std.specs.List.{AllZip};
ghost use Rattle.std.specs.Thread.{IsSync};
ghost use Rattle.tib_lex.specs.Lists.{Each};
ghost use Rattle.tib_weigh.specs.Entries.{IsAscending};
ghost use Rattle.tib_weigh.specs.Found.{IsBlank};
ghost use Rattle.tib_weigh.specs.Shapes.{IsIndex};
ghost use Rattle.tib_weigh.specs.Vectors.{vectors, IsNodeVector};

use crate::found::CostsByState;
use crate::index::Index;
use crate::node::put_node_vector;
use crate::pieces::{LEAST_PIECE, halvings, middle_of, nodes_of};
use crate::vector::{Entry, cost_at};
use std::alloc::{AllocError, Global};
use std::thread::{Threads, join};
use tib_cost::{Cost, Semiring};
use tib_normal::Normal;
use tib_tree::{Node, Tree};

// What is reused from node to node: the costs by state, the entries that are tried, and vectors
// that no tree needs any more.
#[derive(Drop)]
struct Room {
    found: CostsByState,
    picked: Vec<Entry>,
    spare: Vec<Vec<Entry>>,
}

impl Room {
    // Room for a grammar of this number of states.
    fn new(alloc: Global, states: u32) -> Result<Room, AllocError>
        ensures blank { IfOk result (λ r. IsBlank r.found) }
        ensures long { IfOk result (λ r. length r.found.costs.items ≡ states) }
    {
        Ok(Room {
            found: CostsByState::new(alloc, states)?,
            picked: Vec::new(alloc),
            spare: Vec::new(alloc),
        })
    }

    // An empty vector.
    fn vector(&mut self, alloc: Global) -> Vec<Entry>
        ensures empty { result.items ≡ [] }
        ensures found { self.new.found ≡ self.old.found }
    {
        let Some(mut vector) = self.spare.pop() else {
            return Vec::new(alloc);
        };
        vector.clear();
        vector
    }

    // Takes vectors off the stack, as many as asked, and keeps them.
    fn keep(&mut self, stack: &mut Vec<Vec<Entry>>, count: u32) -> Result<(), AllocError>
        ensures stack { IfOk result (λ _. stack.new.items ≡ take (vec_len stack.old - count)
            stack.old.items) }
        ensures found { IfOk result (λ _. self.new.found ≡ self.old.found) }
    {
        for done in 0..count {
            if let Some(vector) = stack.pop() {
                self.spare.push(vector)?;
            }
        }
        Ok(())
    }
}

// Puts the vector of a node over the trees on top of the stack into an empty one, from what the
// index has for its label and rank, else from all rules of these.
fn put_vector_at<S: Semiring>(
    normal: &Normal<S>,
    index: &Index,
    room: &mut Room,
    node: &Node,
    stack: &[Vec<Entry>],
    vector: &mut Vec<Entry>,
) -> Result<(), AllocError>
    requires index { IsIndex S.product normal.now.rules index.now }
    requires enough { node.now.rank ≤ length stack.now }
    requires ascend { Each IsAscending (vectors stack.now) }
    requires blank { IsBlank room.old.found }
    requires long { length room.old.found.costs.items ≡ length normal.now.names }
    requires empty { vector.old.items ≡ [] }
    ensures vector { IfOk result (λ _. IsNodeVector S.product normal.now.rules node.now.label
        node.now.rank (vectors stack.now) vector.new.items) }
    ensures blank { IfOk result (λ _. IsBlank room.new.found) }
    ensures long { IfOk result (λ _. length room.new.found.costs.items ≡ length normal.now.names) }
{
    let grammar = normal.grammar();
    grammar.is_sound();
    let rules = grammar.rule_list();
    let Some(shape) = index.find(node.label, node.rank) else {
        let positions = normal.rules_with(node.label, node.rank);
        return put_node_vector::<S>(rules, positions, node.label, node.rank, stack, vector);
    };
    if node.rank == 0 {
        return vector.extend_from_slice(shape.leaf());
    }
    shape.put_vector::<S>(
        rules,
        node.rank,
        stack,
        &mut room.found,
        &mut room.picked,
        vector,
    )
}

// The cost of a tree, with an index of the rules, which may lack some or all of them. In a
// bottom-up pass the vector of a node holds the least cost from each state.
fn weigh_by<S: Semiring>(
    alloc: Global,
    normal: &Normal<S>,
    index: &Index,
    room: &mut Room,
    tree: &Tree,
) -> Result<Option<Cost>, AllocError>
    requires index { IsIndex S.product normal.now.rules index.now }
    requires blank { IsBlank room.old.found }
    requires long { length room.old.found.costs.items ≡ length normal.now.names }
    ensures cost { IfOk result (λ v. IsSeries S.product normal.now.rules tree.now v) }
    ensures blank { IfOk result (λ _. IsBlank room.new.found) }
    ensures long { IfOk result (λ _. length room.new.found.costs.items ≡ length normal.now.names) }
{
    let nodes = tree.nodes();
    let mut stack: Vec<Vec<Entry>> = Vec::new(alloc);
    let mut i = nodes.len();
    while i > 0 {
        i -= 1;
        let node = &nodes[i];
        let mut vector = room.vector(alloc);
        put_vector_at::<S>(normal, index, room, node, &stack, &mut vector)?;
        room.keep(&mut stack, node.rank)?;
        stack.push(vector)?;
    }
    let cost = cost_at(&stack[0], 0);
    room.keep(&mut stack, 1)?;
    Ok(cost)
}

// The index of the rules, or the empty one where the nodes are too few to be worth it.
fn index_for<S: Semiring>(
    alloc: Global,
    normal: &Normal<S>,
    nodes: usize,
) -> Result<Index, AllocError>
    ensures { IfOk result (IsIndex S.product normal.now.rules) }
{
    if nodes < normal.grammar().rule_list().len() {
        return Ok(Index::empty(alloc));
    }
    Index::new::<S>(alloc, normal)
}

/// The least cost at most 10^15 of a run of the grammar from its start that yields the tree, and
/// None exactly where there is none (inside costs of weighted tree automata; Knuth 1977, Goodman
/// 1999). Err only if memory is refused. For many trees `weigh_all` is cheaper: it indexes the
/// rules once. Worst case: O(r k log s + s) steps at a node, for r rules of its label and rank k
/// over s states, and time and memory in proportion to the rules and the states.
pub fn weigh<S: Semiring>(
    alloc: Global,
    normal: &Normal<S>,
    tree: &Tree,
) -> Result<Option<Cost>, AllocError>
    ensures { IfOk result (λ v. IsSeries S.product normal.now.rules tree.now v) }
{
    let index = index_for::<S>(alloc, normal, tree.nodes().len())?;
    let mut room = Room::new(alloc, normal.grammar().states())?;
    weigh_by::<S>(alloc, normal, &index, &mut room, tree)
}

// The costs of the trees, in order, in this thread.
fn weigh_each<S: Semiring>(
    alloc: Global,
    normal: &Normal<S>,
    index: &Index,
    trees: &[Tree],
) -> Result<Vec<Option<Cost>>, AllocError>
    requires { IsIndex S.product normal.now.rules index.now }
    ensures { IfOk result (λ vs. AllZip (λ t v. IsSeries S.product normal.now.rules t v) trees.now
        vs.items) }
{
    let mut costs = Vec::with_capacity(alloc, trees.len())?;
    let mut room = Room::new(alloc, normal.grammar().states())?;
    for tree in trees {
        costs.push(weigh_by::<S>(alloc, normal, index, &mut room, tree)?)?;
    }
    Ok(costs)
}

// Where to split the trees. A piece of fewer nodes than there are states is not worth its room,
// which has a place for each.
fn middle_for<S: Semiring>(normal: &Normal<S>, trees: &[Tree], times: u32) -> Option<usize>
    ensures { IfSome result (λ n. (0 < times) × (1 ≤ n) × (n < length trees.now)) }
{
    let states = normal.grammar().states() as usize;
    middle_of(trees, times, LEAST_PIECE.max(states))
}

// The costs of the trees, in order. The work is halved by nodes `times` times, and each half has a
// thread of its own.
#[cycle(halves)]
fn weigh_halves<S: Semiring + Sync, R: Threads + Sync>(
    rt: &R,
    alloc: Global,
    normal: &Normal<S>,
    index: &Index,
    trees: &[Tree],
    times: u32,
) -> Result<Vec<Option<Cost>>, AllocError>
    requires { IsIndex S.product normal.now.rules index.now }
    ensures { IfOk result (λ vs. AllZip (λ t v. IsSeries S.product normal.now.rules t v) trees.now
        vs.items) }
{
    let Some(middle) = middle_for::<S>(normal, trees, times) else {
        return weigh_each::<S>(alloc, normal, index, trees);
    };
    let (front, back) = trees.split_at(middle);
    let of_front = move || -> Result<Vec<Option<Cost>>, AllocError>
        requires { IsSync R.row × IsSync S.row × (0 < times) × IsIndex S.product normal.now.rules
            index.now }
        ensures { IfOk result (λ vs. AllZip (λ t v. IsSeries S.product normal.entry.now.rules t v)
            front.entry.now vs.items) }
    { weigh_halves::<S, R>(rt, alloc, normal, index, front, times - 1) };
    let of_back = move || -> Result<Vec<Option<Cost>>, AllocError>
        requires { IsSync R.row × IsSync S.row × (0 < times) × IsIndex S.product normal.now.rules
            index.now }
        ensures { IfOk result (λ vs. AllZip (λ t v. IsSeries S.product normal.entry.now.rules t v)
            back.entry.now vs.items) }
    { weigh_halves::<S, R>(rt, alloc, normal, index, back, times - 1) };
    let (first, second) = join(rt, of_front, of_back);
    let mut costs = first?;
    let rest = second?;
    costs.extend_from_slice(&rest)?;
    Ok(costs)
}

/// The costs of the trees, in order, found in several threads: each is what `weigh` gives. Err only
/// if memory is refused. Worst case: the steps that `weigh` takes at each node, and one pass over
/// the rules, with memory in proportion to them; each piece that has a thread takes room for a cost
/// of each state.
pub fn weigh_all<S: Semiring + Sync, R: Threads + Sync>(
    rt: &R,
    alloc: Global,
    normal: &Normal<S>,
    trees: &[Tree],
) -> Result<Vec<Option<Cost>>, AllocError>
    ensures { IfOk result (λ vs. AllZip (λ t v. IsSeries S.product normal.now.rules t v) trees.now
        vs.items) }
{
    let index = index_for::<S>(alloc, normal, nodes_of(trees))?;
    weigh_halves::<S, R>(rt, alloc, normal, &index, trees, halvings(rt))
}
