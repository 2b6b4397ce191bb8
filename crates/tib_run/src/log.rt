// The line on the log.
ghost use Rattle.std.specs.Prelude.{◌≡◌, ◌++◌, decimal};
ghost use Rattle.tib_io.specs.Wrote.{Wrote};
ghost use Rattle.tib_run.specs.Log.{class_words, kind_words, line_of, plain_line_of};

use itoa::Buffer;
use tib_io::{Failed, Sink};
use tib_lex::FaultKind;
use tib_operations::Status;
use tib_texts::{write_about, write_both, write_piece};
use tib_transducer::ClassFault;

// The words of a fault, with the end of their line.
#[tactic(auto, unfolding(crate::specs::Log::kind_words))]
fn words_of(kind: FaultKind) -> &'static [u8]
    ensures { result.now ≡ kind_words kind }
{
    match kind {
        FaultKind::NoStart => b"no start\n",
        FaultKind::BadToken => b"bad token\n",
        FaultKind::BadRule => b"bad rule\n",
        FaultKind::BadTree => b"bad tree\n",
        FaultKind::LoneVariable => b"lone variable on the left\n",
        FaultKind::VariableTwice => b"variable twice on the left\n",
        FaultKind::UnknownVariable => b"unknown variable\n",
        FaultKind::NotWhole => b"weight is not a whole number\n",
        FaultKind::WeightTooLarge => b"weight too large\n",
        FaultKind::TooManyNodes => b"too many nodes\n",
        FaultKind::BadString => b"bad string\n",
    }
}

// The words of a class that a rule breaks, with the end of their line.
#[tactic(auto, unfolding(crate::specs::Log::class_words))]
fn words_of_class(fault: ClassFault) -> &'static [u8]
    ensures { result.now ≡ class_words fault }
{
    match fault {
        ClassFault::NotLinear => b"not linear\n",
        ClassFault::NotNondeleting => b"not nondeleting\n",
        ClassFault::Extended => b"extended\n",
        ClassFault::Labelled => b"labelled\n",
        ClassFault::NotStrict => b"not strict\n",
    }
}

// Writes a number and two pieces after it.
fn write_behind<W: Sink>(
    out: &mut W,
    number: u32,
    first: &[u8],
    second: &[u8],
) -> Result<(), Failed>
    ensures { Wrote (W.seen out.old) (W.seen out.new)
        (decimal number ++ first.now ++ second.now) result }
{
    let mut buffer = Buffer::new();
    match write_both(out, buffer.format(number).as_bytes(), first) {
        Ok(()) => write_piece(out, second),
        Err(Failed) => Err(Failed),
    }
}

// Writes two numbers among four pieces.
fn write_place<W: Sink>(
    out: &mut W,
    a: &[u8],
    file: u32,
    b: &[u8],
    line: u32,
    c: &[u8],
    d: &[u8],
) -> Result<(), Failed>
    ensures { Wrote (W.seen out.old) (W.seen out.new)
        ((a.now ++ decimal file ++ b.now) ++ (decimal line ++ c.now ++ d.now)) result }
{
    match write_about(out, a, u64::from(file), b) {
        Ok(()) => write_behind(out, line, c, d),
        Err(Failed) => Err(Failed),
    }
}

/// Writes the line of a status, and nothing for the one of a run that is done. It takes no memory.
/// It fails only where the log does; a front of the line is then written.
pub fn tell<W: Sink>(log: &mut W, status: &Status) -> Result<(), Failed>
    ensures { Wrote (W.seen log.old) (W.seen log.new) (line_of status.now) result }
{
    match *status {
        Status::BadInput { file, fault } => write_place(
            log,
            b"tiburon: file ",
            file,
            b": line ",
            fault.line,
            b": ",
            words_of(fault.kind),
        ),
        Status::Class { file, rule, fault } => write_place(
            log,
            b"tiburon: file ",
            file,
            b": rule ",
            rule,
            b": ",
            words_of_class(fault),
        ),
        Status::TooMany { limit } => {
            write_about(log, b"tiburon: more than ", limit, b" parts\n")
        }
        Status::ReadFault { file } => write_about(
            log,
            b"tiburon: file ",
            u64::from(file),
            b": cannot be read\n",
        ),
        Status::TooLong { file } => write_about(
            log,
            b"tiburon: file ",
            u64::from(file),
            b": longer than 8388608 bytes\n",
        ),
        _ => write_piece(log, plain_line(status)),
    }
}

// The line of a status that names no file.
#[tactic(auto, unfolding(crate::specs::Log::plain_line_of))]
fn plain_line(status: &Status) -> &'static [u8]
    ensures { result.now ≡ plain_line_of status.now }
{
    match *status {
        Status::Usage =>
            b"tiburon: usage: tiburon [-m MODE] [-k N] [-w N] [--limit N] [--beam N] OPERATION FILE...\n",
        Status::TreeTooLarge => b"tiburon: a tree has more than 10000 nodes\n",
        Status::WriteFault => b"tiburon: cannot write\n",
        Status::OutOfMemory => b"tiburon: out of memory\n",
        _ => b"",
    }
}
