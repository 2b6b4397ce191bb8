// `check`: the classes of a transducer, and which rule decides each.
ghost use Rattle.std.specs.Prelude.{◌≡◌, ◌++◌, Some, IfOk, OnOk};
ghost use Rattle.tib_io.specs.Wrote.{Wrote};
ghost use Rattle.tib_transducer.specs.Classes.{IsLinear, IsNondeleting, IsExtended, IsLabelled};
ghost use Rattle.tib_operations.specs.Check.{IsFirstSuch, HasClasses, class_line};

use crate::pieces::write_about;
use std::alloc::Global;
use tib_io::{Failed, GrowingSink, Sink, write_whole};
use tib_transducer::{Transducer, extended, labelled, not_linear, not_nondeleting};

// The first rule that is not linear.
fn first_not_linear<S>(transducer: &Transducer<S>) -> Option<u32>
    ensures { IsFirstSuch (λ r. IsLinear r → ⊥) transducer.now.rules result }
{
    not_linear(transducer)
}

// The first rule that is not nondeleting.
fn first_not_nondeleting<S>(transducer: &Transducer<S>) -> Option<u32>
    ensures { IsFirstSuch (λ r. IsNondeleting r → ⊥) transducer.now.rules result }
{
    not_nondeleting(transducer)
}

// The first extended rule.
fn first_extended<S>(transducer: &Transducer<S>) -> Option<u32>
    ensures { IsFirstSuch IsExtended transducer.now.rules result }
{
    extended(transducer)
}

// The first labelled rule.
fn first_labelled<S>(transducer: &Transducer<S>) -> Option<u32>
    ensures { IsFirstSuch IsLabelled transducer.now.rules result }
{
    labelled(transducer)
}

// Writes the line of a class: one text where no rule decides, and else another with the rule that
// does.
fn write_class<W: Sink>(
    out: &mut W,
    none: &[u8],
    some: &[u8],
    rule: Option<u32>,
) -> Result<(), Failed>
    ensures { Wrote (W.seen out.old) (W.seen out.new) (class_line none.now some.now rule) result }
{
    match rule {
        None => write_whole(out, none),
        Some(rule) => write_about(out, some, rule as u64, b"\n"),
    }
}

// Adds the line of a class to a text.
fn add_class(
    text: &mut GrowingSink,
    none: &[u8],
    some: &[u8],
    rule: Option<u32>,
) -> Result<(), Failed>
    ensures { OnOk result (text.new.bytes ≡ text.old.bytes ++ class_line none.now some.now rule) }
{
    write_class::<GrowingSink>(text, none, some, rule)
}

/// The lines of the classes of a transducer. It fails only if memory is refused. It goes over the
/// rules once for each class.
pub fn classes_text<S>(alloc: Global, transducer: &Transducer<S>) -> Result<GrowingSink, Failed>
    ensures { IfOk result (λ text. HasClasses transducer.now text.bytes) }
{
    let mut text = GrowingSink::new(alloc);
    let rule = first_not_linear(transducer);
    add_class(&mut text, b"linear yes\n", b"linear no ", rule)?;
    let rule = first_not_nondeleting(transducer);
    add_class(&mut text, b"nondeleting yes\n", b"nondeleting no ", rule)?;
    let rule = first_extended(transducer);
    add_class(&mut text, b"extended no\n", b"extended yes ", rule)?;
    let rule = first_labelled(transducer);
    add_class(&mut text, b"", b"labelled yes ", rule)?;
    Ok(text)
}
