// Small grammars in normal form: the labels are numbers, 0 for S, 1 for a and 2 for b.
use crate::normals::{Row, have_numbers, make_normal, number_of};
use std::alloc::Global;
use std::test::Fail;
use std::thread::Threads;
use tib_cost::{Boolean, Bottleneck, Cost, MOST, MinPlus, Semiring};
use tib_normal::Normal;
use tib_tree::{Label, Tree};
use tib_weigh::{halvings, middle_of, weigh, weigh_all};

// `q -> S(q q) # 1` and `q -> a # 2`.
static BINARY: [Row; 2] = [(0, 0, &[0, 0], 1), (0, 1, &[], 2)];

// Two ways to S(a a), of which the second is cheaper, and one state that yields b.
static AMBIGUOUS: [Row; 6] = [
    (0, 0, &[1, 1], 5),
    (0, 0, &[2, 2], 1),
    (0, 1, &[], 9),
    (1, 1, &[], 1),
    (2, 1, &[], 2),
    (2, 2, &[], MOST),
];

// The tree of these labels and ranks in preorder.
fn tree_of(alloc: Global, nodes: &[(Label, u32)]) -> Result<Tree, Fail> {
    if nodes.len() > 9 {
        return Err("too many nodes".into());
    }
    match Tree::from_preorder(alloc, nodes) {
        Ok(tree) => Ok(tree),
        Err(_) => Err("not a tree".into()),
    }
}

fn cost_in(
    alloc: Global,
    normal: &Normal<MinPlus>,
    nodes: &[(Label, u32)],
) -> Result<Option<u64>, Fail> {
    let tree = tree_of(alloc, nodes)?;
    Ok(number_of(&weigh(alloc, normal, &tree)?))
}

static TREES: [(&[(Label, u32)], Option<u64>); 5] = [
    (&[(1, 0)], Some(2)),
    (&[(0, 2), (1, 0), (1, 0)], Some(5)),
    (&[(0, 2), (1, 0), (0, 2), (1, 0), (1, 0)], Some(8)),
    (&[(2, 0)], None),
    (&[(0, 1), (1, 0)], None),
];

#[test]
fn a_tree_has_the_least_cost_of_a_run(rt: HostRuntime) -> Result<(), Fail> {
    let binary = make_normal::<MinPlus>(rt.alloc(), 3, &BINARY)?;
    for (nodes, want) in &TREES {
        assert!(rt; cost_in(rt.alloc(), &binary, *nodes)? == *want);
    }
    Ok(())
}

static THREE: [&[(Label, u32)]; 3] = [
    &[(0, 2), (1, 0), (1, 0)],
    &[(0, 2), (2, 0), (1, 0)],
    &[(1, 0)],
];

// S(a a), S(b a) and a.
fn three_trees(alloc: Global) -> Result<Vec<Tree>, Fail> {
    let mut trees = Vec::new(alloc);
    for nodes in &THREE {
        trees.push(tree_of(alloc, *nodes)?)?;
    }
    Ok(trees)
}

// Whether `weigh_all` gives the three trees these costs.
fn costs_are<S: Semiring + Drop + Sync, R: Threads + Sync>(
    rt: &R,
    alloc: Global,
    rows: &[Row],
    want: [Option<u64>; 3],
) -> Result<bool, Fail> {
    let trees = three_trees(alloc)?;
    let normal = make_normal::<S>(alloc, 3, rows)?;
    let costs = weigh_all(rt, alloc, &normal, &trees)?;
    Ok(have_numbers(&costs, &want))
}

#[test]
fn each_semiring_takes_its_own_least(rt: HostRuntime) -> Result<(), Fail> {
    let alloc = rt.alloc();
    let sums = [Some(5), None, Some(9)];
    assert!(rt; costs_are::<MinPlus, _>(&rt, alloc, &AMBIGUOUS, sums)?);
    let greatest = [Some(2), Some(MOST), Some(9)];
    assert!(rt; costs_are::<Bottleneck, _>(&rt, alloc, &AMBIGUOUS, greatest)?);
    let any = [Some(2), None, Some(2)];
    assert!(rt; costs_are::<Boolean, _>(&rt, alloc, &BINARY, any)?);
    Ok(())
}

// This number of trees, of which each seventh is S(a a) and the others are a.
fn many_trees(alloc: Global, many: u32) -> Result<Vec<Tree>, Fail> {
    let mut trees = Vec::new(alloc);
    for n in 0..many {
        let nodes: &[(Label, u32)] = if n % 7 == 0 {
            &[(0, 2), (1, 0), (1, 0)]
        } else {
            &[(1, 0)]
        };
        trees.push(tree_of(alloc, nodes)?)?;
    }
    Ok(trees)
}

fn costs_of_many<R: Threads + Sync>(
    rt: &R,
    alloc: Global,
    many: u32,
) -> Result<Vec<Option<Cost>>, Fail> {
    let trees = many_trees(alloc, many)?;
    let binary = make_normal::<MinPlus>(alloc, 3, &BINARY)?;
    Ok(weigh_all(rt, alloc, &binary, &trees)?)
}

// Whether each seventh cost is that of S(a a), and each other that of a.
fn are_in_order(costs: &[Option<Cost>]) -> bool {
    for (n, cost) in costs.iter().enumerate() {
        if number_of(cost) != Some(if n % 7 == 0 { 5 } else { 2 }) {
            return false;
        }
    }
    true
}

// In several threads, from an index of the rules.
#[test]
fn many_trees_are_weighed_in_order(rt: HostRuntime) -> Result<(), Fail> {
    let costs = costs_of_many(&rt, rt.alloc(), 70_000)?;
    assert!(rt; costs.len() == 70_000 && are_in_order(&costs));
    Ok(())
}

// Whether seventy trees, which have 90 nodes, are parted after 45 of these, and not where too much
// is asked.
fn are_parted(alloc: Global) -> Result<bool, Fail> {
    let trees = many_trees(alloc, 70)?;
    let parted = middle_of(&trees, 1, 45) == Some(35);
    let too_few = middle_of(&trees, 1, 46).is_some()
        || middle_of(&trees[..trees.len().min(1)], 1, 0).is_some();
    Ok(parted && !too_few && middle_of(&trees, 0, 45).is_none())
}

#[test]
fn trees_are_parted_by_nodes(rt: HostRuntime) -> Result<(), Fail> {
    assert!(rt; are_parted(rt.alloc())?);
    let times = halvings(&rt);
    assert!(rt; 2 <= times && times <= 7);
    Ok(())
}
