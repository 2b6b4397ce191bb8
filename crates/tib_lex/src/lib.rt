//! Lines and tokens of the text formats, over the bytes of a file, and the faults that a file may
//! have. What is read from a line is exactly what the format says that it has: its tokens, by their
//! spelling, or none where one is bad. The crate also has the limits that other crates share, and
//! depends on no other crate.
#![tactic(auto)]

mod bytes;
mod fault;
mod laws;
mod lines;
mod next;
mod text;
mod token;
mod tokens;

pub use bytes::is_name;
pub use fault::{FaultKind, FileFault, LineError, ReadError, file_error};
pub use laws::{files_have_lines, lines_have_words, tokens_are_words};
pub use lines::{Line, line_bytes, next_line};
pub use next::next_token;
pub use text::{name_text, read_text, token_text};
pub use token::{Kind, Lexed, Token};
pub use tokens::read_tokens;
