// The writing of a text in pieces.
ghost use Rattle.std.specs.Prelude.{◌++◌, decimal};
ghost use Rattle.tib_io.specs.Wrote.{Wrote};

use itoa::Buffer;
use tib_io::{Failed, Sink, write_whole};

/// Writes a piece. It takes no memory. It fails only where the output does; a front of the piece is
/// then written.
pub fn write_piece<W: Sink>(out: &mut W, piece: &[u8]) -> Result<(), Failed>
    ensures { Wrote (W.seen out.old) (W.seen out.new) piece.now result }
{
    write_whole(out, piece)
}

/// Writes two pieces. It takes no memory. It fails only where the output does; a front of both is
/// then written.
pub fn write_both<W: Sink>(out: &mut W, first: &[u8], second: &[u8]) -> Result<(), Failed>
    ensures { Wrote (W.seen out.old) (W.seen out.new) (first.now ++ second.now) result }
{
    match write_piece(out, first) {
        Ok(()) => write_piece(out, second),
        Err(Failed) => Err(Failed),
    }
}

/// Writes a number between two pieces. It takes no memory. It fails only where the output does; a
/// front of the three is then written.
pub fn write_about<W: Sink>(
    out: &mut W,
    first: &[u8],
    number: u64,
    last: &[u8],
) -> Result<(), Failed>
    ensures { Wrote (W.seen out.old) (W.seen out.new)
        (first.now ++ decimal number ++ last.now) result }
{
    let mut buffer = Buffer::new();
    match write_both(out, first, buffer.format(number).as_bytes()) {
        Ok(()) => write_piece(out, last),
        Err(Failed) => Err(Failed),
    }
}
