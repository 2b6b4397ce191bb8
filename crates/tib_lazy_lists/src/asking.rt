// What states keep while their lists grow.
use std::collections::HashSet;

/// How far the candidates of a state have got.
#[derive(Clone, Copy, Debug)]
pub(crate) enum Stage {
    /// It has its first tree, and its other rules' candidates are not made yet.
    Closed,
    /// Its rules' candidates wait, or were taken.
    Open,
    /// Its list has all its trees.
    Whole,
}

/// What a state keeps in addition to its list.
#[derive(Drop)]
pub(crate) struct Asked {
    /// How far it has got.
    pub(crate) stage: Stage,
    /// The candidate that it took last. Not used if its list is complete.
    pub(crate) last: u32,
    /// The candidates that wait, the least first.
    pub(crate) heap: Vec<u32>,
}

/// What all states keep, and the trees that they list.
#[derive(Drop)]
pub(crate) struct Asking {
    /// How many trees are asked for.
    pub(crate) k: u32,
    /// What each state keeps.
    pub(crate) states: Vec<Asked>,
    /// The rules of each state.
    pub(crate) by_state: Vec<Vec<u32>>,
    /// The trees that each state lists: the state, and the tree's number.
    pub(crate) listed: HashSet<(u32, u32)>,
}
