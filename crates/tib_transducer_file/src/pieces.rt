// The tokens of a line.
ghost use Rattle.std.specs.Prelude.{◌≡◌, ◌≤◌, length, IfOk, Some, None, if◌then◌else◌, All};
ghost use Rattle.tib_lex.specs.Limits.{most_bytes};
ghost use Rattle.tib_lex.specs.Line.{Lies};
ghost use Rattle.tib_transducer_file.specs.Pieces.{pieces_of, pieces_at};

use std::alloc::AllocError;
use tib_lex::{Lexed, Token, next_token};

/// Reads the tokens of a line, if none is bad. Err only if memory is refused. It takes time in
/// proportion to the line.
pub(crate) fn read_pieces(line: &[u8], tokens: &mut Vec<Token>) -> Result<bool, AllocError>
    requires { length line.now ≤ most_bytes }
    ensures pieces { IfOk result (λ ok. pieces_of line.now
        ≡ (if ok then Some (pieces_at line.now 0 tokens.new.items) else None)) }
    ensures few { IfOk result (λ _. length tokens.new.items ≤ length line.now) }
    ensures lie { IfOk result (λ _. All (Lies (length line.now)) tokens.new.items) }
{
    tokens.clear();
    let mut at: u32 = 0;
    loop {
        match next_token(line, at) {
            Lexed::Token(token) => {
                tokens.push(token)?;
                at = token.end;
            }
            Lexed::End => return Ok(true),
            Lexed::BadToken { .. } => return Ok(false),
        }
    }
}
