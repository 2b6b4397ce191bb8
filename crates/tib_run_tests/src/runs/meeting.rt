// Two workers of one run who meet.
use super::gates::{Meeting, Watch};
use super::hunted_rows::{HUNTED, Hunt};
use super::is_untold;
use super::rows::Row;
use super::running::{Outside, Ran, SOUND, run_through};
use std::alloc::{AllocError, Global};
use std::sync::Wait;
use std::thread::Threads;

const TWO: Outside = Outside {
    workers: Some("2"),
    ..SOUND
};

// The run of a row by two workers, who meet at this gate.
fn run_meeting<R: Threads + Wait + Sync>(
    rt: &R,
    alloc: Global,
    row: &Row,
    gate: &Watch,
) -> Result<Ran, AllocError> {
    run_through(
        rt,
        alloc,
        row.0,
        row.1.as_bytes(),
        row.2.as_bytes(),
        &TWO,
        gate,
    )
}

// Whether the workers of both items met in the run of a row, and it wrote the row's text.
fn meets<R: Threads + Wait + Sync>(rt: &R, alloc: Global, hunt: &Hunt) -> bool {
    let gate = Watch::Meet(Meeting::new(hunt.4));
    let Ok(ran) = run_meeting(rt, alloc, &hunt.0, &gate) else {
        return false;
    };
    is_untold(&hunt.0, &ran) && gate.meetings_are(2)
}

// The first row in whose run no two workers meet.
fn first_apart<R: Threads + Wait + Sync>(rt: &R, alloc: Global, hunts: &[Hunt]) -> Option<usize> {
    for (number, hunt) in hunts.iter().enumerate() {
        if !meets(rt, alloc, hunt) {
            return Some(number);
        }
    }
    None
}

// A run whose work is done by one worker, or by several under one lock, gives up there.
#[test]
fn two_workers_meet(rt: HostRuntime) {
    assert_eq!(rt; first_apart(&rt, rt.alloc(), &HUNTED), None);
}
