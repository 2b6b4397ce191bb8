// The four lines of `count`.
ghost use Rattle.std.specs.Prelude.{◌≡◌, ◌++◌, decimal, IfOk, OnOk};
ghost use Rattle.tib_operations.specs.Count.{count_word, count_line, count_text};

use std::alloc::Global;
use tib_count::Count;
use tib_io::{Failed, GrowingSink};
use tib_texts::{write_about, write_both};

// Adds the line of a number to a text.
fn add_number(text: &mut GrowingSink, word: &[u8], number: u64) -> Result<(), Failed>
    ensures { OnOk result (text.new.bytes ≡ text.old.bytes
        ++ count_line word.now (decimal number)) }
{
    write_about::<GrowingSink>(text, word, number, b"\n")
}

// Adds the line of a count to a text.
fn add_count(text: &mut GrowingSink, word: &[u8], count: Count) -> Result<(), Failed>
    ensures { OnOk result (text.new.bytes ≡ text.old.bytes
        ++ count_line word.now (count_word count)) }
{
    match count {
        Count::Number(number) => add_number(text, word, number),
        Count::Many => write_both::<GrowingSink>(text, word, b"many\n"),
        Count::Endless => write_both::<GrowingSink>(text, word, b"endless\n"),
    }
}

/// The lines of four counts: of states, of rules, of runs and of trees. It fails only if memory is
/// refused. It takes a few steps for each byte of the text, which has at most 150.
pub fn counted_text(
    alloc: Global,
    states: u32,
    rules: u32,
    runs: Count,
    trees: Count,
) -> Result<GrowingSink, Failed>
    ensures { IfOk result (λ text. text.bytes ≡ count_text (record {
      states = states;
      rules = rules;
      runs = runs;
      trees = trees;
    })) }
{
    let mut text = GrowingSink::new(alloc);
    add_number(&mut text, b"states ", states as u64)?;
    add_number(&mut text, b"rules ", rules as u64)?;
    add_count(&mut text, b"runs ", runs)?;
    add_count(&mut text, b"trees ", trees)?;
    Ok(text)
}
