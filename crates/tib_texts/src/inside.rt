// `inside`: each state of a grammar with its inside cost.
ghost use Rattle.std.specs.Prelude.{◌≡◌, ◌++◌, length, IfOk, OnOk};
ghost use Rattle.tib_io.specs.Wrote.{Wrote};
ghost use Rattle.tib_operations.specs.Text.{inside_line, inside_lines};

use crate::text::print_cost;
use std::alloc::Global;
use tib_cost::{Cost, Semiring};
use tib_grammar::Names;
use tib_inside::inside;
use tib_io::{Failed, GrowingSink, Sink, write_whole};

// Writes the line of a state with its inside cost.
fn print_state<S: Semiring, W: Sink>(
    name: &[u8],
    cost: Option<Cost>,
    out: &mut W,
) -> Result<(), Failed>
    ensures { Wrote (W.seen out.old) (W.seen out.new) (inside_line S.SCALE name.now cost) result }
{
    match write_whole(out, name) {
        Ok(()) => print_cost::<S, W>(cost, out),
        Err(Failed) => Err(Failed),
    }
}

// Adds the line of a state to a text.
fn add_state<S: Semiring>(
    text: &mut GrowingSink,
    name: &[u8],
    cost: Option<Cost>,
) -> Result<(), Failed>
    ensures { OnOk result (text.new.bytes ≡ text.old.bytes ++ inside_line S.SCALE name.now cost) }
{
    print_state::<S, GrowingSink>(name, cost, text)
}

/// The lines of the states with their inside costs. It fails only if memory is refused. The time is
/// that of the text.
pub fn inside_text<S: Semiring>(
    alloc: Global,
    names: &Names,
    costs: &[Option<Cost>],
) -> Result<GrowingSink, Failed>
    requires { length costs.now ≡ length names.now }
    ensures { IfOk result (λ text. text.bytes ≡ inside_lines S.SCALE names.now costs.now) }
{
    let mut text = GrowingSink::new(alloc);
    for state in 0..names.len() {
        add_state::<S>(&mut text, names.text(state), costs[state as usize])?;
    }
    Ok(text)
}
