// Splits a text into its lines.
ghost use Rattle.std.specs.Prelude.{◌≡◌, ◌≤◌, ◌<◌, ◌+◌, ℕ, List, length, map, take, drop, IfOk};
ghost use Rattle.std.specs.List.{prefix_len};
ghost use Rattle.tib_lex.specs.Lines.{not_feed};
ghost use Rattle.tib_canon.specs.TransducerLines.{AreLinesOf};

use std::alloc::{AllocError, Global};

fn is_not_feed(byte: u8) -> bool
    ensures { result ≡ not_feed byte }
{
    byte != b'\n'
}

// How many bytes come before the first line feed.
fn line_length(text: &[u8]) -> usize
    ensures count { result ≡ prefix_len not_feed text.now }
    ensures within { result ≤ length text.now }
{
    let mut count = 0;
    while count < text.len() && is_not_feed(text[count]) {
        count += 1;
    }
    count
}

// What comes before a place.
fn text_before<'a>(text: &'a [u8], end: usize) -> &'a [u8]
    requires { end ≤ length text.now }
    ensures { result.now ≡ take end text.now }
{
    &text[..end]
}

// What follows the byte at a place.
fn text_behind<'a>(text: &'a [u8], end: usize) -> &'a [u8]
    requires { end < length text.now }
    ensures { result.now ≡ drop (end + 1) text.now }
{
    &text[end + 1..]
}

/// The lines of a text, without the line feeds that end them. Err only if memory is refused. Worst
/// case: one pass over the bytes.
pub(crate) fn lines_in<'a>(alloc: Global, text: &'a [u8]) -> Result<Vec<&'a [u8]>, AllocError>
    requires { (lines : List (List ℕ)) × AreLinesOf text.now lines }
    ensures { IfOk result (λ v. (lines : List (List ℕ)) → AreLinesOf text.now lines →
        map (λ line. line.now) v.items ≡ lines) }
{
    let mut lines = Vec::new(alloc);
    let mut rest = text;
    while !rest.is_empty() {
        let end = line_length(rest);
        lines.push(text_before(rest, end))?;
        rest = text_behind(rest, end);
    }
    Ok(lines)
}
