// The text of a grammar from its sorted lines.
ghost use Rattle.std.specs.Prelude.{◌≡◌, ◌++◌, [], ◌∷◌, IfOk};
ghost use Rattle.tib_canon.specs.Lines.{lines_text};

use crate::lines::Line;
use std::alloc::{AllocError, Global};
use tib_io::{Failed, GrowingSink, write_whole};

// Appends a line and its line feed.
fn add_text(sink: &mut GrowingSink, text: &[u8]) -> Result<(), AllocError>
    ensures { IfOk result (λ _. sink.new.bytes ≡ sink.old.bytes ++ (text.now ++ 10 ∷ [])) }
{
    match write_whole(sink, text) {
        Ok(()) => {}
        Err(Failed) => return Err(AllocError),
    }
    match write_whole(sink, b"\n") {
        Ok(()) => Ok(()),
        Err(Failed) => Err(AllocError),
    }
}

/// The name of the start and then the lines, each with its line feed. Err only if memory is
/// refused. Linear in the bytes of the text.
pub fn text_of(alloc: Global, start: &[u8], lines: &[Line]) -> Result<GrowingSink, AllocError>
    ensures { IfOk result (λ text. text.bytes ≡ (start.now ++ 10 ∷ []) ++ lines_text lines.now) }
{
    let mut sink = GrowingSink::new(alloc);
    add_text(&mut sink, start)?;
    for line in lines {
        add_text(&mut sink, line.text)?;
    }
    Ok(sink)
}
