// Writes the pieces of a printed file: bytes, labels in quotes, numbers, weights, and what ends a
// line.
ghost use Rattle.std.specs.Prelude.{◌<◌, ◌++◌, ℕ, [], ◌∷◌, length, decimal, true};
ghost use Rattle.std.proofs.Common.{get_or};
ghost use Rattle.tib_lex.specs.Grammar.{escape, label, spelling};
ghost use Rattle.tib_io.specs.Wrote.{Wrote};
ghost use Rattle.tib_grammar_file.specs.TreeText.{space, opening, closing};
ghost use Rattle.tib_grammar_file.specs.Printed.{weight_text, cost_text};

use itoa::Buffer;
use tib_cost::{Cost, Scale};
use tib_grammar::Names;
use tib_io::{Failed, Sink, write_whole};

/// Appends some bytes. If the sink fails, a front of them was appended. Worst case: O(n) steps for
/// n bytes.
pub fn put<W: Sink>(out: &mut W, piece: &[u8]) -> Result<(), Failed>
    ensures { Wrote (W.seen out.old) (W.seen out.new) piece.now result }
{
    write_whole(out, piece)
}

// Appends a byte as it is in quotes.
fn put_byte<W: Sink>(out: &mut W, byte: u8) -> Result<(), Failed>
    ensures { Wrote (W.seen out.old) (W.seen out.new) (escape (byte ∷ [])) result }
{
    if byte == b'"' || byte == b'\\' {
        put(out, &[b'\\', byte])
    } else {
        put(out, &[byte])
    }
}

fn put_escaped<W: Sink>(out: &mut W, text: &[u8]) -> Result<(), Failed>
    ensures { Wrote (W.seen out.old) (W.seen out.new) (escape text.now) result }
{
    for byte in text {
        match put_byte(out, *byte) {
            Ok(()) => {}
            Err(Failed) => return Err(Failed),
        }
    }
    Ok(())
}

// Appends the bytes of a label and the quote after it.
fn close_quote<W: Sink>(out: &mut W, text: &[u8]) -> Result<(), Failed>
    ensures { Wrote (W.seen out.old) (W.seen out.new) (escape text.now ++ 34 ∷ []) result }
{
    match put_escaped(out, text) {
        Ok(()) => put(out, b"\""),
        Err(Failed) => Err(Failed),
    }
}

/// Appends a text in quotes, with a backslash before each quote and backslash in it. If the sink
/// fails, a front of this was appended. Worst case: O(n) steps for n bytes.
pub fn put_quoted<W: Sink>(out: &mut W, text: &[u8]) -> Result<(), Failed>
    ensures { Wrote (W.seen out.old) (W.seen out.new) (spelling (label text.now)) result }
{
    match put(out, b"\"") {
        Ok(()) => close_quote(out, text),
        Err(Failed) => Err(Failed),
    }
}

/// Appends a space before each of some trees but the first: the tree has this index. If the sink
/// fails, nothing was appended. Worst case: O(1) steps.
pub fn put_space<W: Sink>(out: &mut W, k: u32) -> Result<(), Failed>
    ensures { Wrote (W.seen out.old) (W.seen out.new) (space k) result }
{
    if k == 0 {
        put(out, b"")
    } else {
        put(out, b" ")
    }
}

/// Appends what opens the children of a node of this rank: a parenthesis if it has some, else
/// nothing. If the sink fails, nothing was appended. Worst case: O(1) steps.
pub fn put_opening<W: Sink>(out: &mut W, rank: u32) -> Result<(), Failed>
    ensures { Wrote (W.seen out.old) (W.seen out.new) (opening rank) result }
{
    if rank == 0 {
        put(out, b"")
    } else {
        put(out, b"(")
    }
}

/// Appends what closes the children of a node of this rank: a parenthesis if it has some, else
/// nothing. If the sink fails, nothing was appended. Worst case: O(1) steps.
pub fn put_closing<W: Sink>(out: &mut W, rank: u32) -> Result<(), Failed>
    ensures { Wrote (W.seen out.old) (W.seen out.new) (closing rank) result }
{
    if rank == 0 {
        put(out, b"")
    } else {
        put(out, b")")
    }
}

/// Appends a number in decimal. If the sink fails, a front of its digits was appended. Worst case:
/// O(1) steps.
pub fn put_number<W: Sink>(out: &mut W, number: u64) -> Result<(), Failed>
    ensures { Wrote (W.seen out.old) (W.seen out.new) (decimal number) result }
{
    let mut digits = Buffer::new();
    put(out, digits.format(number).as_bytes())
}

fn put_weight<W: Sink>(out: &mut W, cost: Cost) -> Result<(), Failed>
    ensures { Wrote (W.seen out.old) (W.seen out.new) (weight_text true cost) result }
{
    match put(out, b" # ") {
        Ok(()) => put_number(out, cost.get()),
        Err(Failed) => Err(Failed),
    }
}

fn put_cost<W: Sink>(out: &mut W, scale: Scale, cost: Cost) -> Result<(), Failed>
    ensures { Wrote (W.seen out.old) (W.seen out.new) (cost_text scale cost) result }
{
    if scale.is_weighted() {
        put_weight(out, scale.weight(cost))
    } else {
        put(out, b"")
    }
}

/// Appends the end of a rule's line: where weights are kept, ` # ` and the weight of the rule's
/// cost, and a line feed. If the sink fails, a front of this was appended. Worst case: O(1) steps.
pub fn put_end<W: Sink>(out: &mut W, scale: Scale, cost: Cost) -> Result<(), Failed>
    ensures { Wrote (W.seen out.old) (W.seen out.new) (cost_text scale cost ++ 10 ∷ []) result }
{
    match put_cost(out, scale, cost) {
        Ok(()) => put(out, b"\n"),
        Err(Failed) => Err(Failed),
    }
}

// Appends the line of the start.
pub(crate) fn put_start<W: Sink>(out: &mut W, names: &Names) -> Result<(), Failed>
    requires { 0 < length names.now }
    ensures { Wrote (W.seen out.old) (W.seen out.new) (get_or names.now 0 [] ++ 10 ∷ []) result }
{
    match put(out, names.text(0)) {
        Ok(()) => put(out, b"\n"),
        Err(Failed) => Err(Failed),
    }
}
