// The entries of a vector for whose states a table has rules.
ghost use Rattle.std.specs.Prelude.{◌≡◌, ◌≤◌, length, take, IfOk};
ghost use Rattle.tib_weigh.specs.Picks.{picks};

use crate::table::Table;
use crate::vector::Entry;
use std::alloc::AllocError;

// Makes a list as long as a vector, if it is shorter.
fn make_room(picked: &mut Vec<Entry>, vector: &[Entry]) -> Result<(), AllocError>
    ensures { IfOk result (λ _. length vector.now ≤ length picked.new.items) }
{
    if picked.len() < vector.len() {
        picked.extend_from_slice(vector)?;
    }
    Ok(())
}

/// Puts the entries of a vector for whose states a table has rules in front of what a list holds
/// already, in their order, and returns how many they are. Each entry is put there, and the next
/// one overwrites it where the table has nothing for it: so no branch depends on that, which a
/// processor would mispredict every other time. Err only if memory is refused; nothing is picked
/// then. Worst case: a few steps for each entry of the vector.
#[inline(never)]
pub(crate) fn pick(
    table: &Table,
    vector: &[Entry],
    picked: &mut Vec<Entry>,
) -> Result<usize, AllocError>
    ensures within { IfOk result (λ n. n ≤ length picked.new.items) }
    ensures picked { IfOk result (λ n. take n picked.new.items ≡ picks table.now vector.now) }
{
    make_room(picked, vector)?;
    let mut many = 0;
    for entry in vector {
        picked[many] = *entry;
        if table.has(entry.state) {
            many += 1;
        }
    }
    Ok(many)
}
