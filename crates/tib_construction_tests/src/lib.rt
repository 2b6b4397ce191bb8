//! Tests of constructions from grammars: intersection, determinization, sums, the matches of a
//! side, and the canonical forms of grammars and transducers.
#![tactic(auto)]

#[cfg(test)]
mod determinize;
#[cfg(test)]
mod forms;
#[cfg(test)]
mod grammars;
#[cfg(test)]
mod intersect;
#[cfg(test)]
mod matches;
#[cfg(test)]
mod sums;
#[cfg(test)]
mod transducers;
