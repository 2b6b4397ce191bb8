//! Tests of what reads and prints texts below grammars: files and sinks, costs, tokens, trees and
//! their files, and the words of a command line.
#![tactic(auto)]

#[cfg(test)]
mod compared;
#[cfg(test)]
mod costs;
#[cfg(test)]
mod host;
#[cfg(test)]
mod lex;
#[cfg(test)]
mod memory;
#[cfg(test)]
mod one_tree;
#[cfg(test)]
mod texts;
#[cfg(test)]
mod tree;
#[cfg(test)]
mod tree_order;
#[cfg(test)]
mod words;
