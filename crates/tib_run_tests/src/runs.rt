// The run over memory: words and files, and what is returned and written on the output and the log.
use std::alloc::{AllocError, Global};
use std::sync::Wait;
use std::thread::Threads;
use tib_operations::Status;

mod applied_rows;
mod compared_rows;
mod composed_rows;
mod count_rows;
mod demo_rows;
mod derived_rows;
mod determinized_rows;
mod difference_rows;
mod domain_rows;
mod gates;
mod hunted_rows;
mod image_rows;
mod inverted_rows;
mod kbest_rows;
mod laws;
mod meeting;
mod parsed_rows;
mod passing;
mod rows;
mod running;
mod through_rows;
mod transducer_rows;
mod trimmed_rows;
mod union_rows;
mod watched;

use applied_rows::{BACKWARD, FORWARD};
use compared_rows::COMPARED;
use composed_rows::COMPOSED;
use count_rows::COUNTED;
use demo_rows::{DEMONSTRATED, SEVEN};
use derived_rows::DERIVED;
use determinized_rows::DETERMINIZED;
use difference_rows::DIFFERENCES;
use domain_rows::DOMAINS;
use image_rows::IMAGED;
use inverted_rows::INVERTED;
use kbest_rows::{LISTED, LISTED_OTHERS};
use parsed_rows::PARSED;
use rows::{INTERSECTED, ONE_FILE, PRUNED, Row, WEIGHED, WEIGHED_OTHERS, WIDEST};
use running::{Calls, Outside, Ran, SOUND, run_words, run_words_alone};
use through_rows::THROUGH;
use transducer_rows::CHECKED;
use trimmed_rows::TRIMMED;
use union_rows::UNITED;

// How a run is to end: its status, the line on the log, and what goes over.
#[derive(Drop)]
struct Ending {
    status: Status,
    line: &'static str,
    calls: Calls,
}

const CANNOT_WRITE: &str = "tiburon: cannot write\n";

// In how many pieces this number of bytes goes over.
fn pieces(bytes: usize, most: usize) -> u64 {
    if most == 0 {
        return 0;
    }
    (bytes as u64).div_ceil(most as u64)
}

// How often a text is read to its end, with a read that gives nothing.
fn reads_to_end(text: &str, most: usize) -> u64 {
    pieces(text.len(), most).saturating_add(1)
}

// How often the first file of a row is read.
fn reads_of_first(row: &Row, most: usize) -> u64 {
    if row.0.contains(&"demo") || row.3 == Status::Usage {
        return 0;
    }
    reads_to_end(row.1, most)
}

// How often the second file of a row is read.
fn reads_of_second(row: &Row, most: usize) -> u64 {
    if !row.0.contains(&"T") || row.3 == Status::Usage {
        return 0;
    }
    match row.3 {
        Status::BadInput { file: 1, .. } => 0,
        _ => reads_to_end(row.2, most),
    }
}

// How often the files of a row are read.
fn reads_of(row: &Row, most: usize) -> u64 {
    reads_of_first(row, most).saturating_add(reads_of_second(row, most))
}

// In how many pieces the text of a row is written.
fn writes_of(row: &Row, most: usize) -> u64 {
    pieces(row.4.len(), most)
}

// How a run ends whose read of this number fails.
fn unread(row: &Row, read: u64, most: usize) -> Ending {
    let (file, line) = if read < reads_of_first(row, most) {
        (1, "tiburon: file 1: cannot be read\n")
    } else {
        (2, "tiburon: file 2: cannot be read\n")
    };
    Ending {
        status: Status::ReadFault { file },
        line,
        calls: Calls {
            bytes: 0,
            reads: read.saturating_add(1),
            writes: 0,
            finishes: 0,
        },
    }
}

// How a run ends that writes nothing.
fn untouched(row: &Row, most: usize) -> Ending {
    Ending {
        status: row.3,
        line: row.5,
        calls: Calls {
            bytes: 0,
            reads: reads_of(row, most),
            writes: 0,
            finishes: 0,
        },
    }
}

// How a run ends that is done.
fn written(row: &Row, most: usize) -> Ending {
    Ending {
        status: row.3,
        line: row.5,
        calls: Calls {
            bytes: row.4.len(),
            reads: reads_of(row, most),
            writes: writes_of(row, most),
            finishes: 1,
        },
    }
}

// How a run ends whose output fails at the write of this number.
fn cut_off(row: &Row, write: u64, most: usize) -> Ending {
    Ending {
        status: Status::WriteFault,
        line: CANNOT_WRITE,
        calls: Calls {
            bytes: most.saturating_mul(write as usize),
            reads: reads_of(row, most),
            writes: write.saturating_add(1),
            finishes: 0,
        },
    }
}

// How a run ends that writes its text, and cannot finish its output.
fn unfinished(row: &Row, most: usize) -> Ending {
    let done = written(row, most);
    Ending {
        status: Status::WriteFault,
        line: CANNOT_WRITE,
        calls: done.calls,
    }
}

// How a run of a row ends in which no read fails, and perhaps this call of the output.
fn ending_of_output(row: &Row, failing: Option<u64>, most: usize) -> Ending {
    if row.3 != Status::Done {
        return untouched(row, most);
    }
    let writes = writes_of(row, most);
    match failing {
        Some(call) if call < writes => cut_off(row, call, most),
        Some(call) if call == writes => unfinished(row, most),
        _ => written(row, most),
    }
}

// How a run of a row is to end over this outside.
fn ending_of(row: &Row, outside: &Outside) -> Ending {
    let most = outside.most;
    if let Some(read) = outside.failing_read {
        if read < reads_of(row, most) {
            return unread(row, read, most);
        }
    }
    ending_of_output(row, outside.failing_call, most)
}

// Whether a front of a text was written, and a line on the log.
fn has_texts(ran: &Ran, text: &str, line: &str) -> bool {
    if ran.log.bytes() != line.as_bytes() {
        return false;
    }
    text.as_bytes().starts_with(ran.out.bytes())
}

// Whether a run ended so.
fn ended(ran: &Ran, text: &str, ending: &Ending) -> bool {
    if ran.status != ending.status || ran.calls != ending.calls {
        return false;
    }
    has_texts(ran, text, ending.line)
}

// The run of a row over this outside.
fn run_row<R: Threads + Wait + Sync>(
    rt: &R,
    alloc: Global,
    row: &Row,
    outside: &Outside,
) -> Result<Ran, AllocError> {
    run_words(
        rt,
        alloc,
        row.0,
        row.1.as_bytes(),
        row.2.as_bytes(),
        outside,
    )
}

// Whether a row runs as it should over this outside, which it does not where memory is refused.
fn runs<R: Threads + Wait + Sync>(rt: &R, alloc: Global, row: &Row, outside: &Outside) -> bool {
    let Ok(ran) = run_row(rt, alloc, row, outside) else {
        return false;
    };
    ended(&ran, row.4, &ending_of(row, outside))
}

// Whether a row runs as it should where the read of this number fails, and where the call of the
// output does.
fn runs_with_fault<R: Threads + Wait + Sync>(
    rt: &R,
    alloc: Global,
    row: &Row,
    most: usize,
    call: u64,
) -> bool {
    let reading = Outside {
        failing_read: Some(call),
        most,
        ..SOUND
    };
    let writing = Outside {
        failing_call: Some(call),
        most,
        ..SOUND
    };
    runs(rt, alloc, row, &reading) && runs(rt, alloc, row, &writing)
}

// Whether a row runs as it should where any one read fails, or any one call of the output, or none.
fn runs_throughout<R: Threads + Wait + Sync>(
    rt: &R,
    alloc: Global,
    row: &Row,
    most: usize,
) -> bool {
    let calls = reads_of(row, most).max(writes_of(row, most));
    for call in 0..=calls.saturating_add(1) {
        if !runs_with_fault(rt, alloc, row, most, call) {
            return false;
        }
    }
    true
}

// Whether a front of a row's text of this many bytes was written, and the run failed where there is
// a text.
fn has_front(row: &Row, ran: &Ran, bytes: usize) -> bool {
    if ran.calls.bytes != bytes {
        return false;
    }
    if row.4.is_empty() {
        return ran.status == row.3;
    }
    ran.status == Status::WriteFault
}

// Whether as much of a row's text is written as there is room for, one byte less than all.
fn fills<R: Threads + Wait + Sync>(rt: &R, alloc: Global, row: &Row) -> bool {
    let bytes = row.4.len().saturating_sub(1);
    let Ok(room) = u32::try_from(bytes) else {
        return false;
    };
    let Ok(ran) = run_row(rt, alloc, row, &Outside { room, ..SOUND }) else {
        return false;
    };
    has_front(row, &ran, bytes)
}

// Whether a run ended with the status of a row, and wrote its text and nothing on the log.
fn is_untold(row: &Row, ran: &Ran) -> bool {
    if ran.status != row.3 || !ran.log.bytes().is_empty() {
        return false;
    }
    ran.out.bytes() == row.4.as_bytes()
}

// What surrounds a run in which nothing can be written on the log.
const UNTOLD: Outside = Outside {
    log_room: 0,
    ..SOUND
};

// Whether a row ends with its status, and writes its text, where nothing can be written on the log.
fn ends_untold<R: Threads + Wait + Sync>(rt: &R, alloc: Global, row: &Row) -> bool {
    let Ok(ran) = run_row(rt, alloc, row, &UNTOLD) else {
        return false;
    };
    is_untold(row, &ran)
}

// Whether a row runs as it should by one worker, whatever its words say of workers.
fn runs_alone<R: Threads + Sync>(rt: &R, alloc: Global, row: &Row) -> bool {
    let run = run_words_alone(rt, alloc, row.0, row.1.as_bytes(), row.2.as_bytes(), &SOUND);
    let Ok(ran) = run else {
        return false;
    };
    ended(&ran, row.4, &ending_of(row, &SOUND))
}

// What surrounds runs in which nothing fails: one and two bytes go over at a time, or two, four and
// sixteen workers hunt.
static OTHERWISE: [Outside; 5] = [
    Outside { most: 1, ..SOUND },
    Outside { most: 2, ..SOUND },
    Outside {
        workers: Some("2"),
        ..SOUND
    },
    Outside {
        workers: Some("4"),
        ..SOUND
    },
    Outside {
        workers: Some("16"),
        ..SOUND
    },
];

// Whether a row runs as it should one and two bytes at a time, by two, four and sixteen workers,
// and by one that hunts alone.
fn runs_otherwise<R: Threads + Wait + Sync>(rt: &R, alloc: Global, row: &Row) -> bool {
    for outside in &OTHERWISE {
        if !runs(rt, alloc, row, outside) {
            return false;
        }
    }
    runs_alone(rt, alloc, row)
}

// Whether a row runs as it should whole and in pieces, with each call failing.
fn runs_with_faults<R: Threads + Wait + Sync>(rt: &R, alloc: Global, row: &Row) -> bool {
    runs_throughout(rt, alloc, row, 7) && runs_throughout(rt, alloc, row, SOUND.most)
}

// The first row that does not run as it should: whole and in pieces, with each call failing, by
// several workers, with room for all its text or not, and with a log that takes nothing.
fn first_wrong<R: Threads + Wait + Sync>(rt: &R, alloc: Global, rows: &[Row]) -> Option<usize> {
    for (number, row) in rows.iter().enumerate() {
        if !runs_with_faults(rt, alloc, row) || !runs_otherwise(rt, alloc, row) {
            return Some(number);
        }
        if !fills(rt, alloc, row) || !ends_untold(rt, alloc, row) {
            return Some(number);
        }
    }
    None
}

// Each table is in a function of its own: a proof with several of them in view, or with one of more
// than some 24 rows, is expensive.

// The rows on `weigh`: costs, weights, and files that are no grammar.
fn weighed() -> &'static [Row] {
    &WEIGHED
}

// The other rows on `weigh`.
fn weighed_others() -> &'static [Row] {
    &WEIGHED_OTHERS
}

// The rows on `inside` and `normal`.
fn one_file() -> &'static [Row] {
    &ONE_FILE
}

// The rows on `prune`.
fn pruned() -> &'static [Row] {
    &PRUNED
}

// The rows on the mode widest.
fn widest() -> &'static [Row] {
    &WIDEST
}

// The rows on `kbest`: the order of trees.
fn listed() -> &'static [Row] {
    &LISTED
}

// The other rows on `kbest`.
fn listed_others() -> &'static [Row] {
    &LISTED_OTHERS
}

// The rows on `intersect`.
fn intersected() -> &'static [Row] {
    &INTERSECTED
}

// The rows on `compare`.
fn compared() -> &'static [Row] {
    &COMPARED
}

// The rows on `determinize`.
fn determinized() -> &'static [Row] {
    &DETERMINIZED
}

// The rows on `forward`.
fn forward() -> &'static [Row] {
    &FORWARD
}

// The rows on `backward`.
fn backward() -> &'static [Row] {
    &BACKWARD
}

// The rows on `image`.
fn imaged() -> &'static [Row] {
    &IMAGED
}

// The rows on `compose`.
fn composed() -> &'static [Row] {
    &COMPOSED
}

// The rows on `parse`.
fn parsed() -> &'static [Row] {
    &PARSED
}

// The rows on `check`.
fn checked() -> &'static [Row] {
    &CHECKED
}

// The rows on `union`.
fn united() -> &'static [Row] {
    &UNITED
}

// The rows on `difference`.
fn differences() -> &'static [Row] {
    &DIFFERENCES
}

// The rows on `trim`.
fn trimmed() -> &'static [Row] {
    &TRIMMED
}

// The rows on `through`.
fn through() -> &'static [Row] {
    &THROUGH
}

// The rows on `count`.
fn counted() -> &'static [Row] {
    &COUNTED
}

// The rows on `runs`.
fn derived() -> &'static [Row] {
    &DERIVED
}

// The rows on `invert`.
fn inverted() -> &'static [Row] {
    &INVERTED
}

// The rows on `domain`.
fn domains() -> &'static [Row] {
    &DOMAINS
}

// The rows on `demo`.
fn demonstrated() -> &'static [Row] {
    &DEMONSTRATED
}

#[test]
fn trees_are_weighed_as_worked_out(rt: HostRuntime) {
    assert_eq!(rt; first_wrong(&rt, rt.alloc(), weighed()), None);
    assert_eq!(rt; first_wrong(&rt, rt.alloc(), weighed_others()), None);
}

#[test]
fn operations_on_one_file_are_as_worked_out(rt: HostRuntime) {
    assert_eq!(rt; first_wrong(&rt, rt.alloc(), one_file()), None);
    assert_eq!(rt; first_wrong(&rt, rt.alloc(), pruned()), None);
}

#[test]
fn cheapest_trees_are_as_worked_out(rt: HostRuntime) {
    assert_eq!(rt; first_wrong(&rt, rt.alloc(), listed()), None);
    assert_eq!(rt; first_wrong(&rt, rt.alloc(), listed_others()), None);
}

#[test]
fn classes_are_told_as_worked_out(rt: HostRuntime) {
    assert_eq!(rt; first_wrong(&rt, rt.alloc(), checked()), None);
}

#[test]
fn intersections_are_as_worked_out(rt: HostRuntime) {
    assert_eq!(rt; first_wrong(&rt, rt.alloc(), intersected()), None);
}

#[test]
fn outputs_and_inputs_of_a_transducer_are_as_worked_out(rt: HostRuntime) {
    assert_eq!(rt; first_wrong(&rt, rt.alloc(), forward()), None);
    assert_eq!(rt; first_wrong(&rt, rt.alloc(), backward()), None);
}

#[test]
fn compositions_and_images_are_as_worked_out(rt: HostRuntime) {
    assert_eq!(rt; first_wrong(&rt, rt.alloc(), composed()), None);
    assert_eq!(rt; first_wrong(&rt, rt.alloc(), imaged()), None);
}

#[test]
fn trees_of_a_string_and_supports_are_as_worked_out(rt: HostRuntime) {
    assert_eq!(rt; first_wrong(&rt, rt.alloc(), parsed()), None);
    assert_eq!(rt; first_wrong(&rt, rt.alloc(), compared()), None);
}

#[test]
fn the_mode_widest_and_determinizations_are_as_worked_out(rt: HostRuntime) {
    assert_eq!(rt; first_wrong(&rt, rt.alloc(), widest()), None);
    assert_eq!(rt; first_wrong(&rt, rt.alloc(), determinized()), None);
}

#[test]
fn unions_and_domains_are_as_worked_out(rt: HostRuntime) {
    assert_eq!(rt; first_wrong(&rt, rt.alloc(), united()), None);
    assert_eq!(rt; first_wrong(&rt, rt.alloc(), domains()), None);
}

#[test]
fn differences_and_counts_are_as_worked_out(rt: HostRuntime) {
    assert_eq!(rt; first_wrong(&rt, rt.alloc(), differences()), None);
    assert_eq!(rt; first_wrong(&rt, rt.alloc(), counted()), None);
}

#[test]
fn rules_in_complete_runs_are_as_worked_out(rt: HostRuntime) {
    assert_eq!(rt; first_wrong(&rt, rt.alloc(), trimmed()), None);
    assert_eq!(rt; first_wrong(&rt, rt.alloc(), through()), None);
}

#[test]
fn derivations_and_inverses_are_as_worked_out(rt: HostRuntime) {
    assert_eq!(rt; first_wrong(&rt, rt.alloc(), derived()), None);
    assert_eq!(rt; first_wrong(&rt, rt.alloc(), inverted()), None);
}

#[test]
fn the_rows_on_demo_run(rt: HostRuntime) {
    assert_eq!(rt; first_wrong(&rt, rt.alloc(), demonstrated()), None);
    assert!(rt; runs(&rt, rt.alloc(), &SEVEN, &SOUND));
}
