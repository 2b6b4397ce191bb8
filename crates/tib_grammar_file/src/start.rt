// The start of a grammar file, and what follows it.
ghost use Rattle.std.specs.Prelude.{◌≡◌, ◌≤◌, ◌<◌, ◌-◌, ◌^◌, ℕ, List, [], length, All, IfOk};
ghost use Rattle.tib_lex.specs.Line.{words_at, Lies};
ghost use Rattle.tib_lex.specs.Lines.{HasNoFeed};
ghost use Rattle.tib_grammar_file.specs.Found.{text_at, WeightLies};
ghost use Rattle.tib_grammar_file.specs.Reading.{start_of, start_line, grammar_of};
ghost use Rattle.tib_grammar_file.specs.RawGrammar.{IsStartLine, IsBegun, ReadsRaw};
ghost use Rattle.tib_lex.specs.Limits.{most_bytes};

use crate::raw::{RawRules, read_rules};
use crate::rule::has_dot;
use std::alloc::Global;
use tib_cost::Scale;
use tib_lex::{
    FaultKind, FileFault, Kind, LineError, ReadError, Token, file_error, line_bytes, next_line,
    read_text, read_tokens,
};
use tib_tree::Labels;

// The token of a start line.
fn start_token(tokens: &[Token]) -> Option<Token>
    ensures start { (line : List ℕ) → start_of (words_at line tokens.now) ≡ text_at line result }
    ensures lies { (long : ℕ) → All (Lies long) tokens.now → WeightLies long result }
{
    if tokens.len() != 1 {
        return None;
    }
    let token = tokens[0];
    match token.kind {
        Kind::Name => Some(token),
        _ => None,
    }
}

/// Whether a line is the start line, whose name goes into the table. A line without tokens is not,
/// and any other line has a fault: `BadToken`, or else `BadRule`. `OutOfMemory` if memory is
/// refused. After an error the table keeps its texts. `tokens` and `text` are room to work in.
/// Worst case: O(n) steps for n bytes, where a look-up by hash counts once.
pub fn read_start(
    line: &[u8],
    tokens: &mut Vec<Token>,
    text: &mut Vec<u8>,
    names: &mut Labels,
) -> Result<bool, LineError>
    requires short { length line.now ≤ most_bytes }
    requires plain { HasNoFeed line.now }
    requires room { length names.old < 2 ^ 32 - 1 }
    ensures { IsStartLine names.old names.new result (start_line line.now) }
{
    if !read_tokens(line, tokens)? {
        return Err(LineError::Fault(FaultKind::BadToken));
    }
    if tokens.is_empty() {
        return Ok(false);
    }
    let token = match start_token(tokens) {
        Some(token) => token,
        None => return Err(LineError::Fault(FaultKind::BadRule)),
    };
    read_text(line, token, text)?;
    if has_dot(text) {
        return Err(LineError::Fault(FaultKind::BadRule));
    }
    names.intern(text)?;
    Ok(true)
}

/// Where the line after the start line begins, and its number.
#[derive(Clone, Copy, Debug)]
pub(crate) struct Begun {
    pub at: u32,
    pub number: u32,
}

fn find_start(alloc: Global, bytes: &[u8], names: &mut Labels) -> Result<Begun, ReadError>
    requires short { length bytes.now ≤ most_bytes }
    requires room { length names.old < 2 ^ 32 - 1 }
    ensures { IsBegun bytes.now names.old names.new result }
{
    let mut tokens = Vec::new(alloc);
    let mut text = Vec::new(alloc);
    let mut at: u32 = 0;
    let mut number: u32 = 1;
    while let Some(line) = next_line(bytes, number, at) {
        let found = match read_start(line_bytes(bytes, line), &mut tokens, &mut text, names) {
            Ok(found) => found,
            Err(error) => return Err(file_error(line.number, error)),
        };
        at = line.next;
        number += 1;
        if found {
            return Ok(Begun { at, number });
        }
    }
    Err(ReadError::Fault(FileFault {
        line: 1,
        kind: FaultKind::NoStart,
    }))
}

/// The rules of a grammar file. The names of its states go into one table, and the texts in its
/// trees into another; both are empty before.
pub(crate) fn read_raw(
    alloc: Global,
    scale: Scale,
    bytes: &[u8],
    names: &mut Labels,
    texts: &mut Labels,
) -> Result<RawRules, ReadError>
    requires short { length bytes.now ≤ most_bytes }
    requires names { names.old ≡ [] }
    requires texts { texts.old ≡ [] }
    ensures raw { ReadsRaw names.old names.new texts.new result (grammar_of scale bytes.now) }
    ensures few { IfOk result (λ raw. length raw.nodes.items ≤ length bytes.now) }
{
    let begun = match find_start(alloc, bytes, names) {
        Ok(begun) => begun,
        Err(error) => return Err(error),
    };
    read_rules(alloc, scale, bytes, begun.at, begun.number, names, texts)
}
