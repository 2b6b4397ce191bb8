// What a name may stand for: a variable, a pair, or a root with its state.
ghost use Rattle.std.specs.Prelude.{◌≡◌, ◌≤◌, ◌<◌, ◌+◌, ◌^◌, ℕ, List, length, slice_range, IfSome, true};
ghost use Rattle.std.specs.List.{list_all};
ghost use Rattle.std.specs.Option.{option_map};
ghost use Rattle.tib_lex.specs.Line.{Lies, text_of, word_at};
ghost use Rattle.tib_tree.specs.Shape.{item_at, PlaceLies};
ghost use Rattle.tib_grammar_file.specs.Found.{text_at, WeightLies};
ghost use Rattle.tib_grammar_file.specs.Weight.{is_digit as spec_is_digit, decimal};
ghost use Rattle.tib_transducer_file.specs.Forms.{digits, number_size as spec_number_size, number_of as spec_number_of, stop_at as spec_stop_at, variable_of as spec_variable_of, pair_of as spec_pair_of, variable_in as spec_variable_in, pair_in as spec_pair_in, is_stray as spec_is_stray, written_label, label_behind as spec_label_behind, ends_with_stop as spec_ends_with_stop, ends_with_colon as spec_ends_with_colon, leaf_text, is_some, is_root};
ghost use Rattle.tib_transducer_file.specs.Found.{bytes_at, variable_at, pair_at, IsRootAt};

use tib_lex::{Kind, Token, is_name};
use tib_tree::Place;

// The bytes of a token.
fn bytes_of(line: &[u8], token: Token) -> &[u8]
    requires { Lies (length line.now) token }
    ensures { result.now ≡ slice_range line.now token.start token.end }
{
    &line[token.start as usize..token.end as usize]
}

fn is_digit(byte: u8) -> bool
    ensures { result ≡ spec_is_digit byte }
{
    byte > 47 && byte < 58
}

// How many digits are at the front.
#[tactic(auto, using(tib_lex::proofs::Runs::run_on, tib_lex::proofs::Runs::run_ends))]
fn count_digits(bytes: &[u8]) -> usize
    ensures count { result ≡ digits bytes.now }
    ensures within { result ≤ length bytes.now }
{
    let mut count = 0;
    while count < bytes.len() && is_digit(bytes[count]) {
        count += 1;
    }
    count
}

// How many digits follow an x at the front, if they are one to nine, otherwise 0.
fn number_size(text: &[u8]) -> usize
    ensures size { result ≡ spec_number_size text.now }
{
    let Some((byte, rest)) = text.split_first() else {
        return 0;
    };
    if *byte != b'x' {
        return 0;
    }
    let count = count_digits(rest);
    if count < 10 { count } else { 0 }
}

// The number that at most nine digits write.
fn value_of(digits: &[u8]) -> u32
    requires few { length digits.now < 10 }
    requires digits { list_all spec_is_digit digits.now ≡ true }
    ensures { result ≡ decimal digits.now }
{
    let mut value: u32 = 0;
    let mut at = 0;
    while at < digits.len() {
        value = 10 * value + (digits[at] - 48) as u32;
        at += 1;
    }
    value
}

// The number after the x.
fn number_of(text: &[u8], size: usize) -> u32
    requires size { size ≡ spec_number_size text.now }
    requires some { 0 < size }
    ensures { result ≡ spec_number_of text.now }
{
    value_of(&text[1..size + 1])
}

/// The tokens of a variable: its number, and the label that it asks for.
#[derive(Clone, Copy, Debug)]
pub(crate) struct VariableToken {
    pub number: u32,
    pub label: Option<Token>,
}

/// The tokens of a pair: its state, and the number of its variable.
#[derive(Clone, Copy, Debug)]
pub(crate) struct PairToken {
    pub state: Token,
    pub number: u32,
}

/// The tokens of a root: its state, and what follows the full stop.
#[derive(Clone, Copy, Debug)]
pub(crate) struct RootToken {
    pub state: Token,
    pub behind: Token,
}

/// The token of a label that is written without quotes or in them.
pub(crate) fn label_token(line: &[u8], start: u32, end: u32) -> Token
    requires some { start < end }
    requires within { end ≤ length line.now }
    ensures text { text_of (word_at line.now result) ≡ written_label
        (slice_range line.now start end) }
    ensures lies { Lies (length line.now) result }
{
    let quoted = line[start as usize] == b'"' && end - start > 1;
    let kind = if quoted { Kind::Quoted } else { Kind::Name };
    Token { kind, start, end }
}

/// The variable that a token is, by its bytes.
pub(crate) fn variable_of(line: &[u8], token: Token) -> Option<VariableToken>
    requires { Lies (length line.now) token }
    ensures variable { option_map (variable_at line.now) result
        ≡ spec_variable_of (bytes_at line.now token) }
    ensures lies { IfSome result (λ v. WeightLies (length line.now) v.label) }
{
    let text = bytes_of(line, token);
    let size = number_size(text);
    if size == 0 {
        return None;
    }
    let number = number_of(text, size);
    let behind = token.start + size as u32 + 1;
    if behind == token.end {
        return Some(VariableToken {
            number,
            label: None,
        });
    }
    if line[behind as usize] != b':' {
        return None;
    }
    let label = label_behind(line, behind + 1, token.end);
    Some(VariableToken { number, label })
}

// The label after a colon, if there is one.
fn label_behind(line: &[u8], start: u32, end: u32) -> Option<Token>
    requires order { start ≤ end }
    requires within { end ≤ length line.now }
    ensures label { text_at line.now result ≡ spec_label_behind (slice_range line.now start end) }
    ensures lies { WeightLies (length line.now) result }
{
    if start == end {
        return None;
    }
    Some(label_token(line, start, end))
}

// Where the first full stop is.
#[tactic(auto, using(tib_lex::proofs::Runs::run_on, tib_lex::proofs::Runs::run_ends))]
fn stop_at(text: &[u8]) -> usize
    ensures place { result ≡ spec_stop_at text.now }
    ensures within { result ≤ length text.now }
{
    let mut at = 0;
    while at < text.len() && text[at] != b'.' {
        at += 1;
    }
    at
}

// The pair that a token is, by its bytes.
fn pair_of(line: &[u8], token: Token) -> Option<PairToken>
    requires { Lies (length line.now) token }
    ensures pair { option_map (pair_at line.now) result ≡ spec_pair_of (bytes_at line.now token) }
    ensures lies { IfSome result (λ q. Lies (length line.now) q.state) }
{
    let text = bytes_of(line, token);
    let stop = stop_at(text);
    if !is_name(&text[..stop]) {
        return None;
    }
    if stop == text.len() {
        return None;
    }
    let behind = &text[stop + 1..];
    let size = number_size(behind);
    if size == 0 {
        return None;
    }
    if behind.len() != size + 1 {
        return None;
    }
    let state = Token {
        kind: Kind::Name,
        start: token.start,
        end: token.start + stop as u32,
    };
    let number = number_of(behind, size);
    Some(PairToken { state, number })
}

/// The root that a token is, by its bytes: a state's name, a full stop, and something after it.
pub(crate) fn root_of(line: &[u8], token: Token) -> Option<RootToken>
    requires { Lies (length line.now) token }
    ensures root { is_some result ≡ is_root (bytes_at line.now token) }
    ensures tokens { IfSome result (λ root. IsRootAt line.now (bytes_at line.now token) root) }
{
    let text = bytes_of(line, token);
    let stop = stop_at(text);
    if !is_name(&text[..stop]) {
        return None;
    }
    if stop + 1 >= text.len() {
        return None;
    }
    let end = token.start + stop as u32;
    Some(RootToken {
        state: Token {
            kind: Kind::Name,
            start: token.start,
            end,
        },
        behind: Token {
            kind: Kind::Name,
            start: end + 1,
            end: token.end,
        },
    })
}

/// Whether the first full stop of a token is its last byte.
pub(crate) fn ends_with_stop(line: &[u8], token: Token) -> bool
    requires { Lies (length line.now) token }
    ensures { result ≡ spec_ends_with_stop (bytes_at line.now token) }
{
    let text = bytes_of(line, token);
    text.len() == stop_at(text) + 1
}

/// Whether a token is a variable that ends with a colon.
pub(crate) fn ends_with_colon(line: &[u8], token: Token) -> bool
    requires { Lies (length line.now) token }
    ensures { result ≡ spec_ends_with_colon (bytes_at line.now token) }
{
    let text = bytes_of(line, token);
    let size = number_size(text);
    if size == 0 {
        return false;
    }
    text.len() == size + 2 && text[size + 1] == b':'
}

// The token of a leaf without quotes.
fn leaf_token(place: Place) -> Option<Token>
    ensures leaf { (line : List ℕ) → option_map (bytes_at line) result
        ≡ leaf_text (item_at line place).quoted place.kids (item_at line place).text }
    ensures same { IfSome result (λ t. t ≡ place.token) }
{
    if place.kids.is_some() {
        return None;
    }
    match place.token.kind {
        Kind::Name => Some(place.token),
        _ => None,
    }
}

/// The variable that a place of a left side below its root is.
pub(crate) fn variable_in(line: &[u8], place: Place) -> Option<VariableToken>
    requires { PlaceLies (length line.now) place }
    ensures variable { option_map (variable_at line.now) result
        ≡ spec_variable_in (item_at line.now place) }
    ensures lies { IfSome result (λ v. WeightLies (length line.now) v.label) }
{
    match leaf_token(place) {
        Some(token) => variable_of(line, token),
        None => None,
    }
}

/// The pair that a place of a right side is.
pub(crate) fn pair_in(line: &[u8], place: Place) -> Option<PairToken>
    requires { PlaceLies (length line.now) place }
    ensures pair { option_map (pair_at line.now) result ≡ spec_pair_in (item_at line.now place) }
    ensures lies { IfSome result (λ q. Lies (length line.now) q.state) }
{
    match leaf_token(place) {
        Some(token) => pair_of(line, token),
        None => None,
    }
}

/// Whether a place of a right side would be a variable of a left side.
pub(crate) fn is_stray(line: &[u8], place: Place) -> bool
    requires { PlaceLies (length line.now) place }
    ensures { result ≡ spec_is_stray (item_at line.now place) }
{
    match pair_in(line, place) {
        Some(_) => false,
        None => variable_in(line, place).is_some(),
    }
}
