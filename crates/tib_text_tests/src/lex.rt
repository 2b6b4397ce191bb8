// Lines, tokens and texts of small files.
ghost use Rattle.std.specs.Prelude.{length, IfSome, All};
ghost use Rattle.tib_lex.specs.Line.{Lies};

use crate::texts::repeated;
use std::alloc::{AllocError, Global};
use tib_lex::{
    FaultKind, FileFault, Kind, Lexed, Line, ReadError, Token, line_bytes, name_text, next_line,
    next_token, read_tokens, token_text,
};

/// The first line of the file `a`, an empty line, `b`.
const FIRST: Line = Line {
    number: 1,
    start: 0,
    end: 1,
    next: 2,
};

/// Its last line.
const LAST: Line = Line {
    number: 3,
    start: 3,
    end: 4,
    next: 4,
};

#[test]
fn lines_end_before_a_feed_or_with_the_file(rt: HostRuntime) {
    assert!(rt; next_line(b"a\n\nb", 1, 0) == Some(FIRST));
    assert!(rt; next_line(b"a\n\nb", 3, 3) == Some(LAST));
    assert!(rt; next_line(b"a\n\nb", 4, 4).is_none());
}

#[test]
fn a_line_has_its_bytes(rt: HostRuntime) {
    assert!(rt; line_bytes(b"a\n\nb", LAST) == b"b".as_slice());
}

// A line, a place in it, and the token that is read from there: its kind, its start and its end.
type Row = (&'static [u8], u32, Kind, u32, u32);

static TOKENS: [Row; 4] = [
    (b" \t\rq->a", 0, Kind::Name, 3, 7),
    (b"q -> a", 1, Kind::Arrow, 2, 4),
    (b"\"a\\\"\"(", 0, Kind::Quoted, 0, 5),
    (b"#", 0, Kind::Hash, 0, 1),
];

// What is read of a line from a place on; none where the line has no such place.
fn read_from(line: &[u8], at: u32) -> Option<Lexed> {
    if line.len() > 99 || at as usize > line.len() {
        return None;
    }
    Some(next_token(line, at))
}

// Whether the token of a row is read.
fn reads_token(row: &Row) -> bool {
    let (line, at, kind, start, end) = *row;
    read_from(line, at) == Some(Lexed::Token(Token { kind, start, end }))
}

#[test]
fn a_token_is_read_behind_white_space(rt: HostRuntime) {
    for row in &TOKENS {
        assert!(rt; reads_token(row));
    }
}

// A line from its start on, and that it ends without a token, or where its first token is bad.
static ENDS: [(&[u8], Lexed); 3] = [
    (b"  % (", Lexed::End),
    (b" \"a\\n\"", Lexed::BadToken { at: 1 }),
    (b"\x7f", Lexed::BadToken { at: 0 }),
];

#[test]
fn a_line_ends_or_has_a_bad_token(rt: HostRuntime) {
    for (line, want) in &ENDS {
        assert!(rt; read_from(*line, 0) == Some(*want));
    }
}

// A line of this many names, and of a quoted token with as many bytes.
fn long_line(alloc: Global, count: u32) -> Result<Vec<u8>, AllocError> {
    let names = repeated(alloc, b"", b"a ", count, b"\"")?;
    repeated(alloc, &names, b"b", count, b"\"")
}

// Whether the first line of a long file ends at this place.
fn ends_first(bytes: &[u8], end: u32) -> bool {
    if bytes.len() > 8_388_608 {
        return false;
    }
    match next_line(bytes, 1, 0) {
        Some(line) => line.end == end,
        None => false,
    }
}

// Whether a line of 70,000 names and of a quoted token with as many bytes ends after them, and has
// just these tokens.
fn reads_long_line(alloc: Global) -> bool {
    match long_line(alloc, 70_000) {
        Ok(line) => {
            ends_first(&line, 210_002)
                && has_tokens(alloc, &line, 70_001)
                && has_text_of_length(alloc, &line, 70_000, 70_000)
        }
        Err(_) => false,
    }
}

#[test]
fn a_long_line_is_read(rt: HostRuntime) {
    assert!(rt; reads_long_line(rt.alloc()));
}

// A kind of fault, and its words.
static KINDS: [(FaultKind, &str); 11] = [
    (FaultKind::NoStart, "no start"),
    (FaultKind::BadToken, "bad token"),
    (FaultKind::BadRule, "bad rule"),
    (FaultKind::BadTree, "bad tree"),
    (FaultKind::LoneVariable, "lone variable on the left"),
    (FaultKind::VariableTwice, "variable twice on the left"),
    (FaultKind::UnknownVariable, "unknown variable"),
    (FaultKind::NotWhole, "weight is not a whole number"),
    (FaultKind::WeightTooLarge, "weight too large"),
    (FaultKind::TooManyNodes, "too many nodes"),
    (FaultKind::BadString, "bad string"),
];

// Whether a kind of fault says these words.
fn says(alloc: Global, kind: FaultKind, words: &str) -> bool {
    match kind.to_string(alloc) {
        Ok(said) => said.as_str() == words,
        Err(_) => false,
    }
}

#[test]
fn a_kind_of_fault_says_what_it_is(rt: HostRuntime) {
    for (kind, words) in &KINDS {
        assert!(rt; says(rt.alloc(), *kind, *words));
    }
}

/// A fault of a line.
const BAD_LINE: ReadError = ReadError::Fault(FileFault {
    line: 7,
    kind: FaultKind::BadToken,
});

// Why a file was not read, and its words.
static ERRORS: [(ReadError, &str); 2] = [
    (BAD_LINE, "line 7: bad token"),
    (ReadError::OutOfMemory, "out of memory"),
];

// Whether an error says these words.
fn tells(alloc: Global, error: ReadError, words: &str) -> bool {
    match error.to_string(alloc) {
        Ok(said) => said.as_str() == words,
        Err(_) => false,
    }
}

#[test]
fn a_fault_says_its_line_and_what_it_is(rt: HostRuntime) {
    for (error, words) in &ERRORS {
        assert!(rt; tells(rt.alloc(), *error, *words));
    }
}

// The tokens of a line; none where one of them is bad, the line is too long or memory was refused.
fn tokens_of(alloc: Global, line: &[u8]) -> Option<Vec<Token>>
    ensures { IfSome result (λ tokens. All (Lies (length line.now)) tokens.items) }
{
    if line.len() > 8_388_608 {
        return None;
    }
    let mut tokens = Vec::new(alloc);
    match read_tokens(line, &mut tokens) {
        Ok(true) => Some(tokens),
        _ => None,
    }
}

// Whether a line has this many tokens.
fn has_tokens(alloc: Global, line: &[u8], count: usize) -> bool {
    match tokens_of(alloc, line) {
        Some(tokens) => tokens.len() == count,
        None => false,
    }
}

// The token at a place of a line.
fn token_at(alloc: Global, line: &[u8], place: usize) -> Option<Token>
    ensures { IfSome result (Lies (length line.now)) }
{
    let tokens = tokens_of(alloc, line)?;
    match tokens.get(place) {
        Some(token) => Some(*token),
        None => None,
    }
}

// The text of the token at a place.
fn text_at(alloc: Global, line: &[u8], place: usize) -> Option<Vec<u8>> {
    let token = token_at(alloc, line, place)?;
    token_text(alloc, line, &token).ok()
}

// Whether the text of the token at a place has this many bytes.
fn has_text_of_length(alloc: Global, line: &[u8], place: usize, length: usize) -> bool {
    match text_at(alloc, line, place) {
        Some(text) => text.len() == length,
        None => false,
    }
}

// Whether the token at a place has this text.
fn has_text(alloc: Global, line: &[u8], place: usize, want: &[u8]) -> bool {
    match text_at(alloc, line, place) {
        Some(text) => text.as_slice() == want,
        None => false,
    }
}

/// A line of four tokens.
const QUOTES: &[u8] = b"f(\"\\\"\\\\\" )";

// A place among the tokens of the line, and the text of the token there.
static QUOTED: [(usize, &[u8]); 2] = [(0, b"f"), (2, b"\"\\")];

#[test]
fn a_quoted_text_loses_its_quotes(rt: HostRuntime) {
    assert!(rt; has_tokens(rt.alloc(), QUOTES, 4));
    for (place, want) in &QUOTED {
        assert!(rt; has_text(rt.alloc(), QUOTES, *place, *want));
    }
}

// A place among the tokens of the line, and the name of the token there.
static NAMED: [(usize, Option<&[u8]>); 2] = [(0, Some(b"f")), (2, None)];

// Whether a token is at a place, and has this name or none.
fn is_named(alloc: Global, line: &[u8], place: usize, name: Option<&[u8]>) -> bool {
    match token_at(alloc, line, place) {
        Some(token) => name_text(line, token) == name,
        None => false,
    }
}

#[test]
fn a_quoted_text_is_no_name(rt: HostRuntime) {
    for (place, name) in &NAMED {
        assert!(rt; is_named(rt.alloc(), QUOTES, *place, *name));
    }
}
