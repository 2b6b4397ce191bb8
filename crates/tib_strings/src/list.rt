// The words of a line.
ghost use Rattle.std.specs.Prelude.{◌≡◌, ◌≤◌, ◌<◌, ◌+◌, ◌-◌, ◌^◌, nat_lt, length, map, All, IfOk};
ghost use Rattle.std.specs.List.{list_all};
ghost use Rattle.tib_lex.specs.Limits.{most_bytes};
ghost use Rattle.tib_lex.specs.Line.{Lies, word_at, words_at};
ghost use Rattle.tib_lex.specs.Lines.{HasNoFeed};
ghost use Rattle.tib_lex.specs.Lists.{Along};
ghost use Rattle.tib_tree.specs.Grows.{Grows, AddsAll};
ghost use Rattle.tib_tree.specs.Trees.{most_nodes};
ghost use Rattle.tib_strings.specs.Listed.{is_mark as spec_is_mark, is_mark_alone as spec_is_mark_alone, is_entry as spec_is_entry, item_of, texts_of, IsNamed};
ghost use Rattle.tib_strings.specs.Found.{IsListed, IsSkipped};

use std::alloc::{AllocError, Global};
use tib_lex::{FaultKind, Kind, LineError, Token, read_tokens};
use tib_tree::{Label, Labels, MOST_NODES, intern_token};

// Whether a token is `*e*` without quotes.
fn is_mark(line: &[u8], token: Token) -> bool
    requires { Lies (length line.now) token }
    ensures { result ≡ spec_is_mark (word_at line.now token) }
{
    match token.kind {
        Kind::Name => line[token.start as usize..token.end as usize] == b"*e*"[..],
        _ => false,
    }
}

/// Whether `*e*` is the only token.
pub(crate) fn is_mark_alone(line: &[u8], tokens: &[Token]) -> bool
    requires { All (Lies (length line.now)) tokens.now }
    ensures { result ≡ spec_is_mark_alone (words_at line.now tokens.now) }
{
    if tokens.len() != 1 {
        return false;
    }
    is_mark(line, tokens[0])
}

// Whether a token is a word.
fn is_entry(line: &[u8], token: Token) -> bool
    requires { Lies (length line.now) token }
    ensures { result ≡ spec_is_entry (word_at line.now token) }
{
    match token.kind {
        Kind::Name => !is_mark(line, token),
        Kind::Quoted => true,
        _ => false,
    }
}

/// Whether each token is a word.
pub(crate) fn are_entries(line: &[u8], tokens: &[Token]) -> bool
    requires { All (Lies (length line.now)) tokens.now }
    ensures { result ≡ list_all spec_is_entry (words_at line.now tokens.now) }
{
    for token in tokens {
        if !is_entry(line, *token) {
            return false;
        }
    }
    true
}

/// Whether a list has more words than a file may write in one.
pub(crate) fn is_long(tokens: &[Token]) -> bool
    ensures { result ≡ nat_lt most_nodes (length tokens.now) }
{
    tokens.len() > MOST_NODES
}

/// Whether a line has tokens, which then stand for the words of a string.
pub(crate) fn read_list(line: &[u8], tokens: &mut Vec<Token>) -> Result<bool, LineError>
    requires { length line.now ≤ most_bytes }
    ensures { IsListed line.now tokens.new.items result }
{
    match read_tokens(line, tokens) {
        Ok(true) => {}
        Ok(false) => return Err(LineError::Fault(FaultKind::BadToken)),
        Err(AllocError) => return Err(LineError::OutOfMemory),
    }
    if tokens.is_empty() {
        return Ok(false);
    }
    if is_mark_alone(line, tokens) {
        tokens.clear();
        return Ok(true);
    }
    if !are_entries(line, tokens) {
        return Err(LineError::Fault(FaultKind::BadString));
    }
    if is_long(tokens) {
        return Err(LineError::Fault(FaultKind::TooManyNodes));
    }
    Ok(true)
}

/// Skips a line after that of a string, if it has no token.
pub(crate) fn skip_line(line: &[u8], tokens: &mut Vec<Token>) -> Result<(), LineError>
    requires { length line.now ≤ most_bytes }
    ensures { IsSkipped line.now result }
{
    match read_tokens(line, tokens) {
        Ok(true) => {}
        Ok(false) => return Err(LineError::Fault(FaultKind::BadToken)),
        Err(AllocError) => return Err(LineError::OutOfMemory),
    }
    if !tokens.is_empty() {
        return Err(LineError::Fault(FaultKind::BadString));
    }
    Ok(())
}

/// The labels of words, whose texts go into the table.
pub(crate) fn intern_words(
    alloc: Global,
    line: &[u8],
    tokens: &[Token],
    labels: &mut Labels,
) -> Result<Vec<Label>, AllocError>
    requires lie { All (Lies (length line.now)) tokens.now }
    requires plain { HasNoFeed line.now }
    requires room { length labels.old + length tokens.now < 2 ^ 32 - 1 }
    ensures words { IfOk result (λ s. Along (IsNamed labels.new) s.items
        (map item_of (words_at line.now tokens.now))) }
    ensures adds { IfOk result (λ _. AddsAll labels.old
        (texts_of (map item_of (words_at line.now tokens.now))) labels.new) }
    ensures grows { Grows labels.old labels.new }
    ensures few { length labels.new ≤ length labels.old + length tokens.now }
{
    let mut text = Vec::new(alloc);
    let mut words = Vec::with_capacity(alloc, tokens.len())?;
    for token in tokens {
        let word = intern_token(line, *token, labels, &mut text)?;
        words.push(word)?;
    }
    Ok(words)
}
