// The start of a transducer file, and what follows it.
ghost use Rattle.std.specs.Prelude.{◌≤◌, ◌<◌, ◌-◌, ◌^◌, length};
ghost use Rattle.tib_lex.specs.Limits.{most_bytes};
ghost use Rattle.tib_transducer_file.specs.Begins.{IsBegun};

use std::alloc::Global;
use tib_grammar_file::read_start;
use tib_lex::{FaultKind, FileFault, ReadError, file_error, line_bytes, next_line};
use tib_tree::Labels;

/// Where the line after the start line begins, and its number.
#[derive(Clone, Copy, Debug)]
pub(crate) struct Begun {
    pub at: u32,
    pub number: u32,
}

/// Finds the line of the start, whose name goes into the table. A fault is the first of the lines
/// up to it, or in line 1 that no line has tokens. It takes time in proportion to these lines.
pub(crate) fn find_start(
    alloc: Global,
    bytes: &[u8],
    names: &mut Labels,
) -> Result<Begun, ReadError>
    requires short { length bytes.now ≤ most_bytes }
    requires room { length names.old < 2 ^ 32 - 1 }
    ensures { IsBegun bytes.now names.old names.new result }
{
    let mut tokens = Vec::new(alloc);
    let mut text = Vec::new(alloc);
    let mut at: u32 = 0;
    let mut number: u32 = 1;
    while let Some(line) = next_line(bytes, number, at) {
        let found = match read_start(line_bytes(bytes, line), &mut tokens, &mut text, names) {
            Ok(found) => found,
            Err(error) => return Err(file_error(line.number, error)),
        };
        at = line.next;
        number += 1;
        if found {
            return Ok(Begun { at, number });
        }
    }
    Err(ReadError::Fault(FileFault {
        line: 1,
        kind: FaultKind::NoStart,
    }))
}
