// Writes labels as they are written in transducers, and decides which of them need no quotes.
ghost use Rattle.std.specs.Prelude.{◌≡◌, ◌≤◌, ◌<◌, length};
ghost use Rattle.tib_io.specs.Wrote.{Wrote};
ghost use Rattle.tib_grammar_file.specs.Weight.{is_digit as spec_is_digit};
ghost use Rattle.tib_transducer_file.specs.Forms.{digits, number_size as spec_number_size};
ghost use Rattle.tib_transducer_file.specs.Printed.{is_variable as spec_is_variable, ends_or_colon as spec_ends_or_colon, is_plain as spec_is_plain, label_text};

use tib_grammar_file::{has_dot, put, put_quoted};
use tib_io::{Failed, Sink};
use tib_lex::is_name;

fn is_digit(byte: u8) -> bool
    ensures { result ≡ spec_is_digit byte }
{
    byte > 47 && byte < 58
}

// How many digits are at the front.
#[tactic(auto, using(tib_lex::proofs::Runs::run_on, tib_lex::proofs::Runs::run_ends))]
fn count_digits(bytes: &[u8]) -> usize
    ensures count { result ≡ digits bytes.now }
    ensures within { result ≤ length bytes.now }
{
    let mut count = 0;
    while count < bytes.len() && is_digit(bytes[count]) {
        count += 1;
    }
    count
}

// How many digits follow an x at the front, if they are one to nine, otherwise 0.
fn number_size(text: &[u8]) -> usize
    ensures size { result ≡ spec_number_size text.now }
    ensures within { 0 < result → result < length text.now }
{
    let Some((byte, rest)) = text.split_first() else {
        return 0;
    };
    if *byte != b'x' {
        return 0;
    }
    let count = count_digits(rest);
    if count < 10 { count } else { 0 }
}

// Whether nothing is there, or a colon comes first.
fn ends_or_colon(text: &[u8]) -> bool
    ensures { result ≡ spec_ends_or_colon text.now }
{
    let Some((byte, _)) = text.split_first() else {
        return true;
    };
    *byte == b':'
}

// Whether a text reads as a variable.
fn is_variable(text: &[u8]) -> bool
    ensures { result ≡ spec_is_variable text.now }
{
    let size = number_size(text);
    if size == 0 {
        return false;
    }
    ends_or_colon(&text[size + 1..])
}

// Whether a label reads as one without quotes.
fn is_plain(text: &[u8]) -> bool
    ensures { result ≡ spec_is_plain text.now }
{
    is_name(text) && !has_dot(text) && !is_variable(text)
}

/// Appends a label of this text as transducers have it: bare where it reads as a label without
/// quotes, otherwise in quotes. If the sink fails, a front of this was appended. Worst case: O(n)
/// steps for n bytes.
pub fn put_label<W: Sink>(out: &mut W, text: &[u8]) -> Result<(), Failed>
    ensures { Wrote (W.seen out.old) (W.seen out.new) (label_text text.now) result }
{
    if is_plain(text) {
        put(out, text)
    } else {
        put_quoted(out, text)
    }
}
