//! Tests of hunts and of what their workers share: the lock by turns, the table of keys, the
//! items of a task; and of small hunts, many keys and several workers.
#![tactic(auto)]

#[cfg(test)]
mod crew;
#[cfg(test)]
mod keys;
#[cfg(test)]
mod small;
#[cfg(test)]
mod strands;
#[cfg(test)]
mod table;
#[cfg(test)]
mod turn;
#[cfg(test)]
mod workers;
