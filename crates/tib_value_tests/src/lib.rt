//! Tests of grammars and transducers as values, and of their files: their parts, rules and classes,
//! normal forms, inside costs and trimming, and what is read and printed.
#![tactic(auto)]

#[cfg(test)]
mod classes;
#[cfg(test)]
mod grammar_file;
#[cfg(test)]
mod grammars;
#[cfg(test)]
mod inside;
#[cfg(test)]
mod normal;
#[cfg(test)]
mod rules;
#[cfg(test)]
mod rulewise;
#[cfg(test)]
mod string_file;
#[cfg(test)]
mod strings;
#[cfg(test)]
mod texts;
#[cfg(test)]
mod transducer;
#[cfg(test)]
mod transducer_file;
#[cfg(test)]
mod transducer_print;
#[cfg(test)]
mod trimmed;
