// The parts of a rule line.
ghost use Rattle.std.specs.Prelude.{◌≡◌, ◌≤◌, ◌<◌, ◌-◌, ◌^◌, ℕ, List, [], ◌∷◌, length, drop, IfOk, IfSome, All};
ghost use Rattle.std.specs.Option.{option_map};
ghost use Rattle.tib_lex.specs.Grammar.{Word};
ghost use Rattle.tib_lex.specs.Line.{word_at, words_at, text_of, Lies};
ghost use Rattle.tib_grammar_file.specs.Rule.{last_two, weight_in, front_of, head_of, has_dot as spec_has_dot, parts_of};
ghost use Rattle.tib_grammar_file.specs.Found.{text_at, found_parts, FoundLies, WeightLies, IsCost};
ghost use Rattle.tib_grammar_file.specs.Weight.{cost_of};

use crate::weight::{one, read_weight};
use std::alloc::AllocError;
use tib_cost::{Cost, Scale};
use tib_lex::{Kind, LineError, Token, read_text};
use tib_tree::Reader;

// The tokens of a rule's left state and of its weight.
#[derive(Clone, Copy, Debug)]
pub(crate) struct LeftAndWeight {
    pub left: Token,
    pub weight: Option<Token>,
}

fn weight_token(hash: Token, name: Token) -> Option<Token>
    ensures text { (line : List ℕ) → last_two (word_at line hash ∷ word_at line name ∷ [])
        ≡ text_at line result }
    ensures same { IfSome result (λ t. t ≡ name) }
{
    match hash.kind {
        Kind::Hash => match name.kind {
            Kind::Name => Some(name),
            _ => None,
        },
        _ => None,
    }
}

/// The token of the weight at the end of these tokens, if a hash and a name end them. It takes no
/// memory, and looks at the last two tokens alone.
pub fn weight_of(rest: &[Token]) -> Option<Token>
    ensures weight { (line : List ℕ) → weight_in (words_at line rest.now) ≡ text_at line result }
    ensures long { IfSome result (λ t. 2 ≤ length rest.now) }
    ensures lies { (long : ℕ) → All (Lies long) rest.now → WeightLies long result }
{
    let n = rest.len();
    if n < 2 {
        return None;
    }
    weight_token(rest[n - 2], rest[n - 1])
}

/// The tokens of the tree before the weight. It takes no memory, and looks at no token.
pub fn tree_tokens(rest: &[Token], weight: Option<Token>) -> &[Token]
    requires { IfSome weight (λ t. 2 ≤ length rest.now) }
    ensures { result.now ≡ front_of weight rest.now }
{
    match weight {
        None => rest,
        Some(_) => &rest[..rest.len() - 2],
    }
}

fn arrow_after(left: Token, arrow: Token) -> Option<Token>
    ensures text { (line : List ℕ) → (words : List Word) →
        head_of (word_at line left ∷ word_at line arrow ∷ words)
        ≡ option_map (λ t. (text_of (word_at line t), words)) result }
    ensures same { IfSome result (λ t. t ≡ left) }
{
    match left.kind {
        Kind::Name => match arrow.kind {
            Kind::Arrow => Some(left),
            _ => None,
        },
        _ => None,
    }
}

// The token of the left state, if an arrow follows it.
fn head_token(tokens: &[Token]) -> Option<Token>
    ensures head { (line : List ℕ) → head_of (words_at line tokens.now)
        ≡ option_map (λ t. (text_of (word_at line t), words_at line (drop 2 tokens.now))) result }
    ensures long { IfSome result (λ t. 2 ≤ length tokens.now) }
    ensures lies { (long : ℕ) → All (Lies long) tokens.now → WeightLies long result }
{
    if tokens.len() < 2 {
        return None;
    }
    arrow_after(tokens[0], tokens[1])
}

fn after_head(tokens: &[Token]) -> &[Token]
    requires { 2 ≤ length tokens.now }
    ensures { result.now ≡ drop 2 tokens.now }
{
    &tokens[2..]
}

/// Whether a full stop is in a text. Worst case: O(n) steps for n bytes.
pub fn has_dot(text: &[u8]) -> bool
    ensures { result ≡ spec_has_dot text.now }
{
    text.iter().any(|byte| b'.' == *byte)
}

// Reads the tree of a rule, and finds its left state and its weight.
pub(crate) fn read_parts(
    line: &[u8],
    tokens: &[Token],
    reader: &mut Reader,
    text: &mut Vec<u8>,
) -> Result<Option<LeftAndWeight>, AllocError>
    requires few { length tokens.now < 2 ^ 32 - 1 }
    requires lie { All (Lies (length line.now)) tokens.now }
    ensures parts { IfOk result (λ found. parts_of (words_at line.now tokens.now)
        ≡ found_parts line.now reader.new.places.items found) }
    ensures lies { IfOk result (λ found. FoundLies (length line.now) reader.new.places.items
        found) }
{
    let Some(left) = head_token(tokens) else {
        return Ok(None);
    };
    read_text(line, left, text)?;
    if has_dot(text) {
        return Ok(None);
    }
    let rest = after_head(tokens);
    let weight = weight_of(rest);
    if !reader.read(tree_tokens(rest, weight))? {
        return Ok(None);
    }
    Ok(Some(LeftAndWeight { left, weight }))
}

/// The cost of a rule with this weight or without one. A fault is that of the weight; `OutOfMemory`
/// if memory is refused. The text is read into `text`. Worst case: O(n) steps for the n bytes of
/// the weight.
#[tactic(auto, unfolding(crate::specs::Weight::cost_of))]
pub fn read_cost(
    scale: Scale,
    line: &[u8],
    weight: Option<Token>,
    text: &mut Vec<u8>,
) -> Result<Cost, LineError>
    requires { WeightLies (length line.now) weight }
    ensures { IsCost result (cost_of scale (text_at line.now weight)) }
{
    match weight {
        None => Ok(one()),
        Some(token) => {
            read_text(line, token, text)?;
            match read_weight(scale, text) {
                Ok(cost) => Ok(cost),
                Err(kind) => Err(LineError::Fault(kind)),
            }
        }
    }
}
