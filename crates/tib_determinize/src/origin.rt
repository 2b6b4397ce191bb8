//! Where an edge of determinization comes from.

use std::marker::Model;
use tib_tree::Label;

/// A label and the positions of the vectors below it. No value of it is made.
#[derive(Drop)]
pub struct Origin {
    label: Label,
    positions: Vec<u32>,
}

impl Model for Origin {
    ghost use Rattle.std.specs.Prelude.{ℕ, List};

    ghost Value = { ℕ × List ℕ };

    ghost view = { λ o. (o.label, o.positions.items) };
}
