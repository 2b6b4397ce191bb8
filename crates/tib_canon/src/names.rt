// Names of states by their numbers.
ghost use Rattle.std.specs.Prelude.{◌≡◌, IfOk};
ghost use Rattle.tib_canon.specs.Canonical.{name_of, names_of};

use itoa::Buffer;
use std::alloc::{AllocError, Global};
use tib_grammar::Names;

// The name of a state.
fn numbered_name(alloc: Global, number: u32) -> Result<Vec<u8>, AllocError>
    ensures { IfOk result (λ name. name.items ≡ name_of number) }
{
    let mut digits = Buffer::new();
    let mut name = Vec::from_slice(alloc, b"q")?;
    name.extend_from_slice(digits.format(number).as_bytes())?;
    Ok(name)
}

/// The names of this number of states: `q0`, `q1`, `q2` and so on. Err only if memory is refused.
/// Linear in the number of states.
pub fn numbered_names(alloc: Global, count: u32) -> Result<Names, AllocError>
    ensures { IfOk result (λ names. names ≡ names_of count) }
{
    let mut texts = Vec::with_capacity(alloc, count as usize)?;
    for number in 0..count {
        texts.push(numbered_name(alloc, number)?)?;
    }
    match Names::from_list(alloc, texts)? {
        Some(names) => Ok(names),
        None => unreachable!(),
    }
}
