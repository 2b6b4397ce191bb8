//! The program `tiburon`: weighs trees by weighted regular tree grammars over exact whole numbers.
//! It fetches the words of its command line, lends the system's files and streams to the one call
//! `tib_run::run`, and ends with the code of its status.
#![tactic(auto)]

use std::io::BufWriter;
use std::process::ExitCode;
use std::sync::Wait;
use std::thread::Threads;
use std::{env, io};
use tib_expand::Open;
use tib_io::{HostFiles, HostSink};
use tib_run::{Status, run, tell};

// The words of the command line without the program's name.
fn words_of(rt: &HostRuntime) -> Result<Vec<String>, Status> {
    let all = match env::args(rt) {
        Ok(all) => all,
        Err(error) => {
            return Err(if error.kind() == io::ErrorKind::OutOfMemory {
                Status::OutOfMemory
            } else {
                Status::Usage
            });
        }
    };
    match all.skip(1).collect(rt.alloc()) {
        Ok(words) => Ok(words),
        Err(_) => Err(Status::OutOfMemory),
    }
}

// The run over the system's files and streams. A program that may start threads has them from its
// runtime, so it is lent twice.
fn outcome<R: Threads + Wait + Sync>(rt: &HostRuntime, threads: &R) -> Status {
    let mut log = HostSink::new(rt.stderr());
    let words = match words_of(rt) {
        Ok(words) => words,
        Err(status) => {
            let _ = tell(&mut log, &status);
            return status;
        }
    };
    let Ok(buffered) = BufWriter::new(rt.alloc(), rt.stdout()) else {
        let _ = tell(&mut log, &Status::OutOfMemory);
        return Status::OutOfMemory;
    };
    let mut files = HostFiles::new(rt);
    let mut out = HostSink::new(buffered);
    run(
        threads,
        rt.alloc(),
        &words,
        &mut files,
        &mut out,
        &mut log,
        &Open,
    )
}

fn main(rt: HostRuntime) -> ExitCode {
    ExitCode::from(outcome(&rt, &rt).code())
}
