// Each key of a run passes the gate once.
use super::gates::{Counting, Watch};
use super::hunted_rows::{HUNTED, Hunt};
use super::is_untold;
use super::rows::Row;
use super::running::{Outside, Ran, SOUND, run_alone_through, run_through};
use std::alloc::{AllocError, Global};
use std::sync::Wait;
use std::thread::Threads;

// The numbers of workers.
static CREWS: [&str; 4] = ["1", "2", "4", "16"];

// The run of a row through this gate, by this many workers; where no number is given, by one that
// hunts alone.
fn run_counting<R: Threads + Wait + Sync>(
    rt: &R,
    alloc: Global,
    row: &Row,
    workers: Option<&'static str>,
    gate: &Watch,
) -> Result<Ran, AllocError> {
    let (words, first, second) = (row.0, row.1.as_bytes(), row.2.as_bytes());
    if workers.is_none() {
        return run_alone_through(rt, alloc, words, first, second, &SOUND, gate);
    }
    let outside = Outside { workers, ..SOUND };
    run_through(rt, alloc, words, first, second, &outside, gate)
}

// Whether each key passes once in the run of a row, and it writes the row's text.
fn pass_once<R: Threads + Wait + Sync>(
    rt: &R,
    alloc: Global,
    hunt: &Hunt,
    workers: Option<&'static str>,
) -> bool {
    let gate = Watch::Count(Counting::new());
    let Ok(ran) = run_counting(rt, alloc, &hunt.0, workers, &gate) else {
        return false;
    };
    is_untold(&hunt.0, &ran) && gate.counts_are(hunt.1, hunt.2, hunt.3)
}

// The same by each number of workers.
fn pass_crews_once<R: Threads + Wait + Sync>(rt: &R, alloc: Global, hunt: &Hunt) -> bool {
    for workers in &CREWS {
        if !pass_once(rt, alloc, hunt, Some(*workers)) {
            return false;
        }
    }
    pass_once(rt, alloc, hunt, None)
}

// The first row in one of whose runs a key passes more than once, or not at all.
fn first_amiss<R: Threads + Wait + Sync>(rt: &R, alloc: Global, hunts: &[Hunt]) -> Option<usize> {
    for (number, hunt) in hunts.iter().enumerate() {
        if !pass_crews_once(rt, alloc, hunt) {
            return Some(number);
        }
    }
    None
}

#[test]
fn each_key_passes_the_gate_once(rt: HostRuntime) {
    assert_eq!(rt; first_amiss(&rt, rt.alloc(), &HUNTED), None);
}
