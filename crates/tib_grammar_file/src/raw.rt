// Rules before name resolution: state or label is known only at the end of the file.
ghost use Rattle.std.specs.Prelude.{◌≡◌, ◌≤◌, ◌<◌, ◌-◌, ◌+◌, ◌^◌, ℕ, List, [], ◌∷◌, ◌++◌, length, drop, IfOk, OnOk, IfSome, Some, None, slice_get, All};
ghost use Rattle.tib_lex.specs.Line.{word_at, text_of, Lies};
ghost use Rattle.tib_lex.specs.Lines.{lines_of, HasNoFeed};
ghost use Rattle.tib_tree.specs.Grows.{Grows, Adds};
ghost use Rattle.tib_tree.specs.Shape.{item_at, items_back, PlaceLies};
ghost use Rattle.tib_grammar_file.specs.Reading.{rules_from};
ghost use Rattle.tib_grammar_file.specs.Raw.{IsRaw, AddsLine, AddsNodes};
ghost use Rattle.tib_grammar_file.specs.RawFile.{IsRawFile};
ghost use Rattle.tib_grammar_file.specs.Rule.{rule_line};
ghost use Rattle.tib_lex.specs.Limits.{most_bytes};

use crate::rule::{read_cost, read_parts};
use std::alloc::{AllocError, Global};
use tib_cost::{Cost, Scale};
use tib_lex::{
    FaultKind, Kind, LineError, ReadError, Token, file_error, line_bytes, next_line, read_tokens,
};
use tib_tree::{Labels, MOST_NODES, Place, Reader, intern_token};

/// A node whose text may be a state's.
#[derive(Clone, Copy, Debug)]
pub(crate) struct RawItem {
    pub text: u32,
    pub quoted: bool,
    pub kids: Option<u32>,
}

/// A rule over the texts of its file, without its nodes.
#[derive(Clone, Copy, Debug)]
pub(crate) struct RawRule {
    pub left: u32,
    pub nodes: u32,
    pub cost: Cost,
}

/// The rules of a file, and the nodes of each after those of the one before.
#[derive(Drop)]
pub(crate) struct RawRules {
    pub rules: Vec<RawRule>,
    pub nodes: Vec<RawItem>,
}

fn is_quoted(place: Place) -> bool
    ensures { (line : List ℕ) → result ≡ (item_at line place).quoted }
{
    match place.token.kind {
        Kind::Name => false,
        _ => true,
    }
}

/// Reads the text of a token into `text` and puts it into the table, and returns its number. Err
/// only if memory is refused; the table keeps its texts. Cost: that of `intern_token`.
pub fn read_name(
    line: &[u8],
    token: Token,
    names: &mut Labels,
    text: &mut Vec<u8>,
) -> Result<u32, AllocError>
    requires lies { Lies (length line.now) token }
    requires plain { HasNoFeed line.now }
    requires room { length names.old < 2 ^ 32 - 1 }
    ensures named { IfOk result (λ n. slice_get names.new n
        ≡ Some (text_of (word_at line.now token))) }
    ensures grows { Grows names.old names.new }
    ensures adds { IfOk result (λ n. Adds names.old (text_of (word_at line.now token)) names.new) }
    ensures few { length names.new ≤ length names.old + 1 }
{
    intern_token(line, token, names, text)
}

fn read_item(
    line: &[u8],
    place: Place,
    texts: &mut Labels,
    text: &mut Vec<u8>,
) -> Result<RawItem, AllocError>
    requires lies { PlaceLies (length line.now) place }
    requires plain { HasNoFeed line.now }
    requires room { length texts.old < 2 ^ 32 - 1 }
    ensures item { IfOk result (λ i. IsRaw texts.new i (item_at line.now place)) }
    ensures grows { Grows texts.old texts.new }
    ensures few { length texts.new ≤ length texts.old + 1 }
{
    let number = read_name(line, place.token, texts, text)?;
    let quoted = is_quoted(place);
    Ok(RawItem {
        text: number,
        quoted,
        kids: place.kids,
    })
}

// Adds the nodes at some tokens of a line after the others.
fn read_side(
    line: &[u8],
    places: &[Place],
    texts: &mut Labels,
    text: &mut Vec<u8>,
    nodes: &mut Vec<RawItem>,
) -> Result<(), AllocError>
    requires lie { All (PlaceLies (length line.now)) places.now }
    requires plain { HasNoFeed line.now }
    requires room { length texts.old + length places.now < 2 ^ 32 - 1 }
    ensures nodes { IfOk result (λ _. AddsNodes texts.new nodes.old.items nodes.new.items
        (items_back line.now places.now)) }
    ensures grows { Grows texts.old texts.new }
    ensures few { length texts.new ≤ length texts.old + length places.now }
{
    let mut i = places.len();
    while i > 0 {
        i -= 1;
        let item = read_item(line, places[i], texts, text)?;
        nodes.push(item)?;
    }
    Ok(())
}

/// Reads rule lines of a grammar file, with room that is used again for each.
#[derive(Drop)]
struct RawReader {
    tokens: Vec<Token>,
    reader: Reader,
    text: Vec<u8>,
}

impl RawReader {
    fn new(alloc: Global) -> RawReader {
        RawReader {
            tokens: Vec::new(alloc),
            reader: Reader::new(alloc),
            text: Vec::new(alloc),
        }
    }

    /// Adds the rule of a line, if it has tokens. Its left state goes into the table of names.
    fn add_line(
        &mut self,
        scale: Scale,
        line: &[u8],
        names: &mut Labels,
        texts: &mut Labels,
        raw: &mut RawRules,
    ) -> Result<(), LineError>
        requires short { length line.now ≤ most_bytes }
        requires plain { HasNoFeed line.now }
        requires names { length names.old < 2 ^ 32 - 1 }
        requires texts { length texts.old + length line.now < 2 ^ 32 - 1 }
        ensures line { AddsLine names.old names.new texts.new raw.old raw.new result
            (rule_line scale line.now) }
        ensures names { Grows names.old names.new }
        ensures texts { Grows texts.old texts.new }
        ensures few_names { length names.new ≤ length names.old + 1 }
        ensures few_texts { length texts.new ≤ length texts.old + length line.now }
        ensures few_nodes { OnOk result (length raw.new.nodes.items
            ≤ length raw.old.nodes.items + length line.now) }
    {
        if !read_tokens(line, &mut self.tokens)? {
            return Err(LineError::Fault(FaultKind::BadToken));
        }
        if self.tokens.is_empty() {
            return Ok(());
        }
        let found = match read_parts(line, &self.tokens, &mut self.reader, &mut self.text)? {
            Some(found) => found,
            None => return Err(LineError::Fault(FaultKind::BadRule)),
        };
        let cost = match read_cost(scale, line, found.weight, &mut self.text) {
            Ok(cost) => cost,
            Err(error) => return Err(error),
        };
        let count = self.reader.places.len();
        if count > MOST_NODES {
            return Err(LineError::Fault(FaultKind::TooManyNodes));
        }
        let left = read_name(line, found.left, names, &mut self.text)?;
        read_side(
            line,
            &self.reader.places,
            texts,
            &mut self.text,
            &mut raw.nodes,
        )?;
        let nodes = count as u32;
        match raw.rules.push(RawRule { left, nodes, cost }) {
            Ok(()) => Ok(()),
            Err(_) => Err(LineError::OutOfMemory),
        }
    }
}

/// The rules from a place of a file on, where a line of this number begins.
pub(crate) fn read_rules(
    alloc: Global,
    scale: Scale,
    bytes: &[u8],
    start: u32,
    first: u32,
    names: &mut Labels,
    texts: &mut Labels,
) -> Result<RawRules, ReadError>
    requires short { length bytes.now ≤ most_bytes }
    requires place { start ≤ length bytes.now }
    requires number { first ≤ start + 1 }
    requires names { length names.old + length bytes.now < 2 ^ 32 - 1 }
    requires texts { length texts.old + length bytes.now < 2 ^ 32 - 1 }
    ensures rules { IsRawFile names.old names.new texts.new result
        (rules_from scale first (lines_of (drop start bytes.now))) }
    ensures few { IfOk result (λ raw. length raw.nodes.items ≤ length bytes.now) }
{
    let mut reader = RawReader::new(alloc);
    let mut raw = RawRules {
        rules: Vec::new(alloc),
        nodes: Vec::new(alloc),
    };
    let mut at = start;
    let mut number = first;
    while let Some(line) = next_line(bytes, number, at) {
        match reader.add_line(scale, line_bytes(bytes, line), names, texts, &mut raw) {
            Ok(()) => {}
            Err(error) => return Err(file_error(line.number, error)),
        }
        at = line.next;
        number += 1;
    }
    Ok(raw)
}
