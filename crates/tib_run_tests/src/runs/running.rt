// A run over memory, and what is seen of it.
use super::gates::Watch;
use super::watched::Watched;
use std::alloc::{AllocError, Global};
use std::sync::Wait;
use std::thread::Threads;
use tib_io::{MemoryFiles, MemorySink};
use tib_operations::Status;
use tib_run::{run, run_alone};

/// How many workers hunt where the words do not say it, the number of the read that fails, and of
/// the call of the output that fails, the room of the output and of the log, and how many bytes go
/// over at a time.
#[derive(Clone, Copy)]
pub struct Outside {
    pub workers: Option<&'static str>,
    pub failing_read: Option<u64>,
    pub failing_call: Option<u64>,
    pub room: u32,
    pub log_room: u32,
    pub most: usize,
}

/// Nothing fails, and the words alone say how many workers hunt.
pub const SOUND: Outside = Outside {
    workers: None,
    failing_read: None,
    failing_call: None,
    room: 1000,
    log_room: 1000,
    most: 1_000_000,
};

/// How many bytes of the output were written, and how often the files were read and the output was
/// written to and finished.
#[derive(Clone, Copy, PartialEq)]
pub struct Calls {
    pub bytes: usize,
    pub reads: u64,
    pub writes: u64,
    pub finishes: u64,
}

/// How a run ended, and what it wrote.
#[derive(Drop)]
pub struct Ran {
    pub status: Status,
    pub out: MemorySink,
    pub log: MemorySink,
    pub calls: Calls,
}

// Adds a word.
fn add_word(alloc: Global, words: &mut Vec<String>, word: &str) -> Result<(), AllocError> {
    words.push(String::from_str(alloc, word)?)?;
    Ok(())
}

// The words as texts of their own, with the number of workers where they do not have it.
fn words_of(
    alloc: Global,
    asked: &[&str],
    workers: Option<&str>,
) -> Result<Vec<String>, AllocError> {
    let mut words = Vec::new(alloc);
    if let Some(workers) = workers {
        if !asked.contains(&"-w") {
            add_word(alloc, &mut words, "-w")?;
            add_word(alloc, &mut words, workers)?;
        }
    }
    for word in asked {
        add_word(alloc, &mut words, word)?;
    }
    Ok(words)
}

// A file with its name.
fn file_of(alloc: Global, name: &str, bytes: &[u8]) -> Result<(String, Vec<u8>), AllocError> {
    let name = String::from_str(alloc, name)?;
    let bytes = bytes.to_vec(alloc)?;
    Ok((name, bytes))
}

// The files `G` and `T` with these bytes.
fn both_files(
    alloc: Global,
    first: &[u8],
    second: &[u8],
) -> Result<Vec<(String, Vec<u8>)>, AllocError> {
    let mut files = Vec::new(alloc);
    files.push(file_of(alloc, "G", first)?)?;
    files.push(file_of(alloc, "T", second)?)?;
    Ok(files)
}

// Files of which one read may fail, and of which this many bytes go over at a time.
fn watched_files(
    alloc: Global,
    files: Vec<(String, Vec<u8>)>,
    outside: &Outside,
) -> Result<Watched<MemoryFiles>, AllocError> {
    let failing = outside.failing_read.as_slice().to_vec(alloc)?;
    Ok(Watched::new(MemoryFiles::new(files, failing), outside.most))
}

// An output of which one call may fail.
fn output_of(alloc: Global, outside: &Outside) -> Result<Watched<MemorySink>, AllocError> {
    let calls = outside.failing_call.as_slice().to_vec(alloc)?;
    let sink = MemorySink::new(alloc, calls, outside.room)?;
    Ok(Watched::new(sink, outside.most))
}

// What a run is given: words, files, an output and a log.
#[derive(Drop)]
struct Given {
    words: Vec<String>,
    files: Watched<MemoryFiles>,
    out: Watched<MemorySink>,
    log: MemorySink,
}

// These words, the files `G` and `T`, and what surrounds the run.
fn prepare(
    alloc: Global,
    asked: &[&str],
    first: &[u8],
    second: &[u8],
    outside: &Outside,
) -> Result<Given, AllocError> {
    let held = both_files(alloc, first, second)?;
    let files = watched_files(alloc, held, outside)?;
    let words = words_of(alloc, asked, outside.workers)?;
    let out = output_of(alloc, outside)?;
    let log = MemorySink::new(alloc, Vec::new(alloc), outside.log_room)?;
    Ok(Given {
        words,
        files,
        out,
        log,
    })
}

// What is seen of a run once it has ended.
fn seen(status: Status, given: Given) -> Ran {
    let Given {
        files,
        out,
        log,
        ..
    } = given;
    let (_, reads, _) = files.into_parts();
    let (out, writes, finishes) = out.into_parts();
    let bytes = out.bytes().len();
    Ran {
        status,
        out,
        log,
        calls: Calls {
            bytes,
            reads,
            writes,
            finishes,
        },
    }
}

/// The run of these words over the files `G` and `T`, with this gate.
pub fn run_through<R: Threads + Wait + Sync>(
    rt: &R,
    alloc: Global,
    asked: &[&str],
    first: &[u8],
    second: &[u8],
    outside: &Outside,
    gate: &Watch,
) -> Result<Ran, AllocError> {
    let mut given = prepare(alloc, asked, first, second, outside)?;
    let status = run(
        rt,
        alloc,
        &given.words,
        &mut given.files,
        &mut given.out,
        &mut given.log,
        gate,
    );
    Ok(seen(status, given))
}

/// The same with a gate that does nothing.
pub fn run_words<R: Threads + Wait + Sync>(
    rt: &R,
    alloc: Global,
    asked: &[&str],
    first: &[u8],
    second: &[u8],
    outside: &Outside,
) -> Result<Ran, AllocError> {
    run_through(rt, alloc, asked, first, second, outside, &Watch::Nothing)
}

/// The same by one worker, whatever the words say of workers, with this gate.
pub fn run_alone_through<R: Threads + Sync>(
    rt: &R,
    alloc: Global,
    asked: &[&str],
    first: &[u8],
    second: &[u8],
    outside: &Outside,
    gate: &Watch,
) -> Result<Ran, AllocError> {
    let mut given = prepare(alloc, asked, first, second, outside)?;
    let status = run_alone(
        rt,
        alloc,
        &given.words,
        &mut given.files,
        &mut given.out,
        &mut given.log,
        gate,
    );
    Ok(seen(status, given))
}

/// The same with a gate that does nothing.
pub fn run_words_alone<R: Threads + Sync>(
    rt: &R,
    alloc: Global,
    asked: &[&str],
    first: &[u8],
    second: &[u8],
    outside: &Outside,
) -> Result<Ran, AllocError> {
    run_alone_through(rt, alloc, asked, first, second, outside, &Watch::Nothing)
}
