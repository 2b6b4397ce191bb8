//! Tests of whole runs: the worked rows of every operation over files in memory, with each read and
//! write failing, by 1 to 16 workers and by one that hunts alone.
#![tactic(auto)]

#[cfg(test)]
mod runs;
