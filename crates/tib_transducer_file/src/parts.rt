// The parts of a rule line, and what may be wrong with its variables.
ghost use Rattle.std.specs.Prelude.{◌≡◌, ◌≤◌, ◌<◌, ◌-◌, ◌^◌, ◌&&◌, not, ℕ, Bool, List, ◌∷◌, length, drop, All, IfOk, Option, None, Some, true, false, ◌==◌};
ghost use Rattle.std.specs.List.{list_any, prefix_len};
ghost use Rattle.indexmap.specs.IndexSet.{keys};
ghost use Rattle.tib_lex.specs.Line.{Lies, words_at, word_at};
ghost use Rattle.tib_lex.specs.declared.token.Token.{Token};
ghost use Rattle.tib_lex.specs.declared.token.Kind.TheVariants as kinds;
ghost use Rattle.tib_tree.specs.Shape.{items_back, item_at, PlaceLies};
ghost use Rattle.tib_tree.specs.Machine.{nodes_of};
ghost use Rattle.tib_tree.specs.Written.{Item};
ghost use Rattle.tib_transducer_file.specs.Pieces.{pieces_at};
ghost use Rattle.tib_transducer_file.specs.Forms.{joins, left_words, is_kind, is_stray as spec_is_stray, takes as spec_takes, opens as spec_opens, pair_in as spec_pair_in};
ghost use Rattle.tib_transducer_file.specs.Rule.{parts_by, numbers_in, is_unknown};
ghost use Rattle.tib_transducer_file.specs.Reader.{HoldsFound, IsRightAt};
ghost use Rattle.tib_transducer_file.specs.Found.{bytes_at, found_parts, FoundLies, parts_with, IsChecked, IsRootAt, IsLeftFound, AreNumbers, is_lone_root};

use crate::forms::{
    RootToken, ends_with_colon, ends_with_stop, is_stray, pair_in, root_of, variable_in,
    variable_of,
};
use crate::right::RightReader;
use indexmap::IndexSet;
use std::alloc::AllocError;
use tib_grammar_file::{tree_tokens, weight_of};
use tib_lex::{FaultKind, Kind, LineError, Token};
use tib_tree::{Place, Reader};

/// The tokens of a rule's root and of its weight.
#[derive(Clone, Copy, Debug)]
pub(crate) struct RootAndWeight {
    pub root: RootToken,
    pub weight: Option<Token>,
}

// Whether the first of some tokens is a parenthesis that opens.
fn opens(tokens: &[Token]) -> bool
    ensures { (line : List ℕ) (at : ℕ) → result ≡ spec_opens (pieces_at line at tokens.now) }
{
    match tokens.first() {
        Some(token) => match token.kind {
            Kind::Open => true,
            _ => false,
        },
        None => false,
    }
}

// Whether a quoted token follows a name directly.
fn are_joined(first: Token, second: Token) -> bool
    ensures { result ≡ is_kind kinds.Name first.kind && is_kind kinds.Quoted second.kind &&
        second.start == first.end }
{
    match first.kind {
        Kind::Name => match second.kind {
            Kind::Quoted => second.start == first.end,
            _ => false,
        },
        _ => false,
    }
}

// Whether a name may take the quoted token that follows it directly.
fn takes(line: &[u8], root: bool, name: Token, behind: &[Token]) -> bool
    requires { Lies (length line.now) name }
    ensures { (at : ℕ) → result ≡ spec_takes root (bytes_at line.now name)
        (pieces_at line.now at behind.now) }
{
    if root {
        ends_with_stop(line, name)
    } else {
        ends_with_colon(line, name) && !opens(behind)
    }
}

// A word of a left side: its token, and of how many tokens it is made.
#[derive(Clone, Copy, Debug)]
struct Joined {
    token: Token,
    size: usize,
}

// The first word of some tokens.
fn first_word(line: &[u8], root: bool, tokens: &[Token]) -> Joined
    requires some { 0 < length tokens.now }
    requires lie { All (Lies (length line.now)) tokens.now }
    ensures words { (at : ℕ) → joins root (pieces_at line.now at tokens.now)
        ≡ word_at line.now result.token ∷ joins false (pieces_at line.now result.token.end
        (drop result.size tokens.now)) }
    ensures lies { Lies (length line.now) result.token }
    ensures some { 0 < result.size }
    ensures few { result.size ≤ length tokens.now }
{
    let first = tokens[0];
    if tokens.len() > 1 {
        let second = tokens[1];
        if are_joined(first, second) && takes(line, root, first, &tokens[2..]) {
            let token = Token {
                kind: Kind::Name,
                start: first.start,
                end: second.end,
            };
            return Joined { token, size: 2 };
        }
    }
    Joined {
        token: first,
        size: 1,
    }
}

// The words of a left side.
fn join_tokens(line: &[u8], tokens: &[Token], words: &mut Vec<Token>) -> Result<(), AllocError>
    requires { All (Lies (length line.now)) tokens.now }
    ensures words { IfOk result (λ _. words_at line.now words.new.items
        ≡ left_words (pieces_at line.now 0 tokens.now)) }
    ensures lie { IfOk result (λ _. All (Lies (length line.now)) words.new.items) }
    ensures few { IfOk result (λ _. length words.new.items ≤ length tokens.now) }
{
    words.clear();
    let mut root = true;
    let mut at = 0;
    while at < tokens.len() {
        let word = first_word(line, root, &tokens[at..]);
        words.push(word.token)?;
        root = false;
        at += word.size;
    }
    Ok(())
}

// The root of what was read, if it has a state.
fn read_root(line: &[u8], places: &[Place]) -> Option<RootToken>
    requires { All (PlaceLies (length line.now)) places.now }
    ensures { IsLeftFound line.now places.now result (Some (items_back line.now places.now)) }
{
    let place = places.last()?;
    match place.token.kind {
        Kind::Name => root_of(line, place.token),
        _ => None,
    }
}

// Reads the tree of a left side, whose places are then the reader's, if its root has a state.
fn read_left(
    line: &[u8],
    tokens: &[Token],
    words: &mut Vec<Token>,
    reader: &mut Reader,
) -> Result<Option<RootToken>, AllocError>
    requires few { length tokens.now < 2 ^ 32 - 1 }
    requires lie { All (Lies (length line.now)) tokens.now }
    ensures left { IfOk result (λ root. IsLeftFound line.now reader.new.places.items root
        (nodes_of (left_words (pieces_at line.now 0 tokens.now)))) }
{
    join_tokens(line, tokens, words)?;
    if !reader.read(words)? {
        return Ok(None);
    }
    Ok(read_root(line, &reader.places))
}

// Where the first arrow is; past the last token if there is none.
#[tactic(auto, using(crate::proofs::Joins::arrow_on, crate::proofs::Joins::arrow_here))]
fn arrow_at(tokens: &[Token]) -> usize
    ensures place { result ≡ prefix_len (λ t. not (is_kind kinds.Arrow t.kind)) tokens.now }
    ensures within { result ≤ length tokens.now }
{
    let mut at = 0;
    while at < tokens.len() && !is_arrow(tokens[at]) {
        at += 1;
    }
    at
}

fn is_arrow(token: Token) -> bool
    ensures { result ≡ is_kind kinds.Arrow token.kind }
{
    match token.kind {
        Kind::Arrow => true,
        _ => false,
    }
}

// Whether a leaf of a right side would be a variable of a left side.
fn has_stray(line: &[u8], places: &[Place]) -> bool
    requires { All (PlaceLies (length line.now)) places.now }
    ensures { result ≡ list_any spec_is_stray (items_back line.now places.now) }
{
    for place in places {
        if is_stray(line, *place) {
            return true;
        }
    }
    false
}

/// Reads both sides of a rule line, if its tokens are one, and finds the root's state and the
/// weight. Err only if memory is refused. It takes time in proportion to the tokens.
pub(crate) fn find_parts<R: RightReader>(
    line: &[u8],
    tokens: &[Token],
    words: &mut Vec<Token>,
    left: &mut Reader,
    right: &mut R,
) -> Result<Option<RootAndWeight>, AllocError>
    requires few { length tokens.now < 2 ^ 32 - 1 }
    requires lie { All (Lies (length line.now)) tokens.now }
    ensures parts { IfOk result (λ found. parts_by R.reads (pieces_at line.now 0 tokens.now)
        ≡ found_parts line.now left.new.places.items (R.places_of right.new) found) }
    ensures lies { IfOk result (λ found. FoundLies line.now left.new.places.items
        (R.places_of right.new) found) }
    ensures right { IfOk result (λ found. HoldsFound (IsRightAt R.is_whole R.is_node) line.now
        (R.places_of right.new) found) }
{
    let arrow = arrow_at(tokens);
    if arrow == tokens.len() {
        return Ok(None);
    }
    let Some(root) = read_left(line, &tokens[..arrow], words, left)? else {
        return Ok(None);
    };
    let back = &tokens[arrow + 1..];
    let weight = weight_of(back);
    if !right.read_right(line, tree_tokens(back, weight))? {
        return Ok(None);
    }
    if has_stray(line, right.places()) {
        return Ok(None);
    }
    Ok(Some(RootAndWeight { root, weight }))
}

// Whether the left side is a variable alone.
fn is_lone(line: &[u8], place: Place, root: RootToken) -> bool
    requires { Lies (length line.now) root.behind }
    ensures { result ≡ is_lone_root place.kids (bytes_at line.now root.behind) }
{
    if place.kids.is_some() {
        return false;
    }
    variable_of(line, root.behind).is_some()
}

// The numbers of the variables of a left side below its root, if none occurs twice.
fn read_variables(
    line: &[u8],
    below: &[Place],
    variables: &mut IndexSet<u32>,
) -> Result<bool, AllocError>
    requires { All (PlaceLies (length line.now)) below.now }
    ensures { IfOk result (λ ok. AreNumbers ok (keys variables.new)
        (numbers_in (items_back line.now below.now))) }
{
    variables.clear();
    let mut i = below.len();
    while i > 0 {
        i -= 1;
        if let Some(variable) = variable_in(line, below[i]) {
            if !variables.insert(variable.number)? {
                return Ok(false);
            }
        }
    }
    Ok(true)
}

// Whether a place of a right side is a pair with a variable that the left side lacks.
fn is_unknown_at(line: &[u8], place: Place, variables: &IndexSet<u32>) -> bool
    requires { PlaceLies (length line.now) place }
    ensures { result ≡ is_unknown (keys variables.now) (spec_pair_in (item_at line.now place)) }
{
    match pair_in(line, place) {
        Some(pair) => !variables.contains(&pair.number),
        None => false,
    }
}

fn has_unknown(line: &[u8], places: &[Place], variables: &IndexSet<u32>) -> bool
    requires { All (PlaceLies (length line.now)) places.now }
    ensures { result ≡ list_any (λ i. is_unknown (keys variables.now) (spec_pair_in i))
        (items_back line.now places.now) }
{
    for place in places {
        if is_unknown_at(line, *place, variables) {
            return true;
        }
    }
    false
}

/// Reads the numbers of the variables of the left side, if the rule uses them well; else the fault
/// is the first of them. It takes time in proportion to both sides.
pub(crate) fn check_variables(
    line: &[u8],
    left: &[Place],
    right: &[Place],
    root: RootToken,
    variables: &mut IndexSet<u32>,
) -> Result<(), LineError>
    requires items { (r : Item) × (below : List Item) × (items_back line.now left.now ≡ r ∷ below)
        × IsRootAt line.now r.text root }
    requires left { All (PlaceLies (length line.now)) left.now }
    requires right { All (PlaceLies (length line.now)) right.now }
    ensures { (weight : Option (List ℕ)) → IsChecked (parts_with (items_back line.now left.now)
        (items_back line.now right.now) weight) (keys variables.new) result }
{
    let last = left.len() - 1;
    if is_lone(line, left[last], root) {
        return Err(LineError::Fault(FaultKind::LoneVariable));
    }
    if !read_variables(line, &left[..last], variables)? {
        return Err(LineError::Fault(FaultKind::VariableTwice));
    }
    if has_unknown(line, right, variables) {
        return Err(LineError::Fault(FaultKind::UnknownVariable));
    }
    Ok(())
}
