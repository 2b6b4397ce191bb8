// Reads string files.
ghost use Rattle.std.specs.Prelude.{◌≤◌, ◌<◌, ◌+◌, ◌-◌, ◌^◌, length, drop, IfOk, IfErr};
ghost use Rattle.tib_lex.specs.Limits.{most_bytes};
ghost use Rattle.tib_lex.specs.Lines.{lines_of};
ghost use Rattle.tib_lex.specs.Lists.{Each};
ghost use Rattle.tib_tree.specs.Grows.{Grows, AddsAll};
ghost use Rattle.tib_strings.specs.StringText.{ReadsAsString, words_of_string};
ghost use Rattle.tib_strings.specs.StringFaults.{IsStringCause};
ghost use Rattle.tib_strings.specs.StringReading.{rest_from};
ghost use Rattle.tib_strings.specs.Found.{IsRest, IsStringFound, KeepsTable};

use crate::list::{intern_words, read_list, skip_line};
use std::alloc::{AllocError, Global};
use tib_lex::{FaultKind, FileFault, Line, ReadError, Token, file_error, line_bytes, next_line};
use tib_tree::{Label, Labels};

// The first line with tokens, which stand for the words of a string.
fn find_string(bytes: &[u8], tokens: &mut Vec<Token>) -> Result<Line, ReadError>
    requires { length bytes.now ≤ most_bytes }
    ensures { IsStringFound bytes.now tokens.new.items result }
{
    let mut at: u32 = 0;
    let mut number: u32 = 1;
    while let Some(line) = next_line(bytes, number, at) {
        match read_list(line_bytes(bytes, line), tokens) {
            Ok(true) => return Ok(line),
            Ok(false) => {}
            Err(error) => return Err(file_error(number, error)),
        }
        at = line.next;
        number += 1;
    }
    let kind = FaultKind::BadString;
    Err(ReadError::Fault(FileFault { line: 1, kind }))
}

// Skips the lines from a place on, where a line of this number begins, if they have no tokens.
fn skip_lines(alloc: Global, bytes: &[u8], start: u32, first: u32) -> Result<(), ReadError>
    requires short { length bytes.now ≤ most_bytes }
    requires place { start ≤ length bytes.now }
    requires number { first ≤ start + 1 }
    ensures { IsRest (rest_from first (lines_of (drop start bytes.now))) result }
{
    let mut tokens = Vec::new(alloc);
    let mut at = start;
    let mut number = first;
    while let Some(line) = next_line(bytes, number, at) {
        match skip_line(line_bytes(bytes, line), &mut tokens) {
            Ok(()) => {}
            Err(error) => return Err(file_error(number, error)),
        }
        at = line.next;
        number += 1;
    }
    Ok(())
}

/// Reads a string file: the labels of the words of its one line with tokens. The texts of words go
/// into the table of labels.
///
/// A fault names the first line that has one and what is wrong there first: a bad token; a bad
/// string, where the line has a token that is no word, or `*e*` without quotes among others, or is
/// the second line with tokens; too many nodes, where it has more than 10,000 words. A file without
/// tokens is a bad string in line 1. After a fault the table is as it was; after `OutOfMemory`,
/// which says nothing about the file, it may hold some of the words, and the texts that it held
/// keep their numbers. Worst case: O(b) steps for b bytes, where a look-up by hash counts once.
pub fn read_string(
    alloc: Global,
    bytes: &[u8],
    labels: &mut Labels,
) -> Result<Vec<Label>, ReadError>
    requires short { length bytes.now ≤ most_bytes }
    requires room { length labels.old + length bytes.now < 2 ^ 32 - 1 }
    ensures text { IfOk result (λ s. ReadsAsString labels.new bytes.now s.items) }
    ensures labelled { IfOk result (λ s. Each (λ f. f < length labels.new) s.items) }
    ensures adds { IfOk result (λ s. AddsAll labels.old (words_of_string labels.new s.items)
        labels.new) }
    ensures fault { IfErr result (λ e. IsStringCause bytes.now e) }
    ensures kept { IfErr result (λ e. KeepsTable labels.old labels.new e) }
    ensures grows { Grows labels.old labels.new }
    ensures few { length labels.new ≤ length labels.old + length bytes.now }
{
    let mut tokens = Vec::new(alloc);
    let line = match find_string(bytes, &mut tokens) {
        Ok(line) => line,
        Err(error) => return Err(error),
    };
    match skip_lines(alloc, bytes, line.next, line.number + 1) {
        Ok(()) => {}
        Err(error) => return Err(error),
    }
    match intern_words(alloc, line_bytes(bytes, line), &tokens, labels) {
        Ok(words) => Ok(words),
        Err(AllocError) => Err(ReadError::OutOfMemory),
    }
}
