// The labels of the rules of a grammar.
ghost use Rattle.std.specs.Prelude.{◌≡◌, ◌∷◌, IfOk, OnOk, slice_get, Some};
ghost use Rattle.tib_tree.specs.Grows.{Grows, Adds};
ghost use Rattle.tib_rulewise.specs.Derivations.{rule_text};

use itoa::Buffer;
use std::alloc::AllocError;
use tib_tree::{Label, Labels};

// Makes some bytes the text of the label of the rule with a number. Err only if memory is refused.
fn put_rule_text(text: &mut Vec<u8>, number: u32) -> Result<(), AllocError>
    ensures { OnOk result (text.new.items ≡ rule_text number) }
{
    let mut digits = Buffer::new();
    text.clear();
    text.push(b'r')?;
    text.extend_from_slice(digits.format(number).as_bytes())
}

/// The label of the rule with a number, which the table gets if it lacks it. The text is made in
/// `room`, whatever that has. Err only if memory is refused, or the table has 2^32 - 1 texts; it
/// then keeps what it had. Cost: that of one look-up.
pub fn label_of_rule(
    labels: &mut Labels,
    number: u32,
    room: &mut Vec<u8>,
) -> Result<Label, AllocError>
    ensures named { IfOk result (λ f. slice_get labels.new f ≡ Some (rule_text number)) }
    ensures grows { Grows labels.old labels.new }
    ensures adds { IfOk result (λ _. Adds labels.old (rule_text number) labels.new) }
{
    if labels.len() >= 4_294_967_295 {
        return Err(AllocError);
    }
    put_rule_text(room, number)?;
    labels.intern(room)
}
