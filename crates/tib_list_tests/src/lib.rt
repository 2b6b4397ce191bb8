//! Tests of lists of best trees and of what they rest on: heaps, shared trees, outside costs,
//! pruning, costs of trees, and the lists, also where the greatest cost counts.
#![tactic(auto)]

#[cfg(test)]
mod heap;
#[cfg(test)]
mod k_best;
#[cfg(test)]
mod lazy_lists;
#[cfg(test)]
mod level_lists;
#[cfg(test)]
mod normals;
#[cfg(test)]
mod outsides;
#[cfg(test)]
mod prune;
#[cfg(test)]
mod shared_trees;
#[cfg(test)]
mod texts;
#[cfg(test)]
mod weigh;
