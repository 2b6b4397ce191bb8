//! Tests of applications of transducers: to grammars, to transducers, to a tree and to a string,
//! and of what transducers read.
#![tactic(auto)]

#[cfg(test)]
mod applications;
#[cfg(test)]
mod backward;
#[cfg(test)]
mod compositions;
#[cfg(test)]
mod domain;
#[cfg(test)]
mod forward;
#[cfg(test)]
mod grammars;
#[cfg(test)]
mod image;
#[cfg(test)]
mod parse;
#[cfg(test)]
mod texts;
#[cfg(test)]
mod transducers;
