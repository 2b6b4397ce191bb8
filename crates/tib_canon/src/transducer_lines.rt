// The lines of rules, by which they are sorted.
ghost use Rattle.std.specs.Prelude.{◌≡◌, ◌+◌, ◌<◌, ◌^◌, length, map, IfOk};
ghost use Rattle.tib_lex.specs.Lists.{Each};
ghost use Rattle.tib_canon.specs.TransducerLines.{IsMoveLine, up_to};

use crate::Line;
use std::alloc::{AllocError, Global};
use tib_transducer::TransducerRule;

/// The line of each rule with its state and its position. The texts of the rules follow that of the
/// start. Err only if memory is refused.
pub(crate) fn lines_of<'a>(
    alloc: Global,
    rules: &[TransducerRule<u32>],
    texts: &[&'a [u8]],
) -> Result<Vec<Line<'a>>, AllocError>
    requires few { length rules.now < 2 ^ 32 }
    requires many { length texts.now ≡ 1 + length rules.now }
    ensures lines { IfOk result (λ v. Each (IsMoveLine rules.now (map (λ t. t.now) texts.now))
        v.items) }
    ensures positions { IfOk result (λ v. map (λ line. line.position) v.items
        ≡ up_to (length rules.now)) }
{
    let mut lines = Vec::with_capacity(alloc, rules.len())?;
    for n in 0..rules.len() {
        lines.push(Line {
            left: rules[n].state,
            text: texts[n + 1],
            position: n as u32,
        })?;
    }
    Ok(lines)
}

/// The positions of the rules of some lines. Err only if memory is refused.
pub(crate) fn positions_of(alloc: Global, lines: &[Line]) -> Result<Vec<u32>, AllocError>
    ensures { IfOk result (λ v. v.items ≡ map (λ line. line.position) lines.now) }
{
    let mut positions = Vec::with_capacity(alloc, lines.len())?;
    for line in lines {
        positions.push(line.position)?;
    }
    Ok(positions)
}
