//! Keys of a round go on its shelves, within a limit of parts; its items are drawn and filed.

ghost use Rattle.std.specs.Prelude.{◌≡◌, ℕ, ◌≤◌, ◌<◌, length, IfOk, IfErr, OnOk};
ghost use Rattle.tib_lex.specs.Lists.{Has, total};
ghost use Rattle.tib_table.specs.Known.{Names, on};
ghost use Rattle.tib_expand.specs.Keys.{key_parts};
ghost use Rattle.tib_expand.specs.Reached.{IfTooMany, most_parts};
ghost use Rattle.tib_hunt.specs.RoundModel.{IsItem, next_item, with_draw, with_key, with_filed};
ghost use Rattle.tib_hunt.specs.Shelved.{all_on, with_keys, NameOn, ShelvesHaveMore};

use crate::event::{Answer, Event};
use crate::itemized::Itemized;
use crate::round::Round;
use std::alloc::{AllocError, Global};
use tib_expand::{HuntError, TableKey};
use tib_table::Number;

/// Draws the next item of a round, or None if all are drawn. Err if memory is refused.
pub(crate) fn draw_item<P: Itemized>(round: &mut Round<P>) -> Result<Option<u32>, AllocError>
    ensures about { round.new.about ≡ round.old.about }
    ensures core { OnOk result (round.new.core ≡ with_draw (P.count_of round.old.about)
        round.old.core) }
    ensures next { IfOk result (λ item. item ≡ next_item (P.first_of round.old.about)
        (P.count_of round.old.about) round.old.core) }
{
    match round.step(Event::Draw)? {
        Answer::Drawn(item) => Ok(item),
        Answer::Numbered(_) => unreachable!(),
        Answer::Filed => unreachable!(),
    }
}

/// Files an item. Err if memory is refused.
pub(crate) fn file_item<P: Itemized>(round: &mut Round<P>, item: u32) -> Result<(), AllocError>
    requires drawn { IsItem (P.first_of round.old.about) round.old.core.drawn item }
    requires once { Has round.old.core.filed item → ⊥ }
    requires ends { (k : P.Key) → P.is_end round.old.about item k →
        Has (on round.old.core.shelves (P.Key.shelf_of k)) k }
    ensures about { round.new.about ≡ round.old.about }
    ensures core { OnOk result (round.new.core ≡ with_filed round.old.core item) }
{
    round.step(Event::File { item })?;
    Ok(())
}

// The number of a key on its shelf, which is appended there if it is new.
fn number_on_shelf<P: Itemized>(round: &mut Round<P>, key: P::Key) -> Result<Number, AllocError>
    requires { (i : ℕ) × IsItem (P.first_of round.old.about) round.old.core.drawn i
        × P.is_end round.old.about i key }
    ensures about { round.new.about ≡ round.old.about }
    ensures core { OnOk result (round.new.core ≡ with_key P.Key.eq P.Key.shelf_of round.old.core
        key) }
    ensures named { IfOk result (λ n. (n.shelf ≡ P.Key.shelf_of key) × Names round.new.core.shelves
        n.shelf n.place key) }
{
    match round.step(Event::Number { key })? {
        Answer::Numbered(number) => Ok(number),
        Answer::Drawn(_) => unreachable!(),
        Answer::Filed => unreachable!(),
    }
}

// The number of a key on its shelf. Adds the parts of a key that is new there; `TooMany` if they
// pass the limit.
fn shelve_key<P: Itemized>(
    round: &mut Round<P>,
    seen: &mut u64,
    limit: u64,
    key: P::Key,
) -> Result<Number, HuntError>
    requires key { (i : ℕ) × IsItem (P.first_of round.old.about) round.old.core.drawn i
        × P.is_end round.old.about i key }
    requires sixteen { length round.old.core.shelves ≡ 16 }
    requires counted { seen.old ≡ total (key_parts P.Key.entries_of)
        (all_on round.old.core.shelves) }
    requires within { seen.old ≤ limit }
    requires limit { limit ≤ most_parts }
    ensures about { round.new.about ≡ round.old.about }
    ensures core { OnOk result (round.new.core ≡ with_key P.Key.eq P.Key.shelf_of round.old.core
        key) }
    ensures named { IfOk result (λ n. Names round.new.core.shelves n.shelf n.place key) }
    ensures counted { OnOk result (seen.new ≡ total (key_parts P.Key.entries_of)
        (all_on (with_key P.Key.eq P.Key.shelf_of round.old.core key).shelves)) }
    ensures within { OnOk result (seen.new ≤ limit) }
    ensures more { IfErr result (IfTooMany limit (limit < total (key_parts P.Key.entries_of)
        (all_on (with_key P.Key.eq P.Key.shelf_of round.old.core key).shelves))) }
{
    let shelf = key.shelf();
    let size = key.entries();
    let held = round.held(shelf);
    let Ok(number) = number_on_shelf(round, key) else {
        return Err(HuntError::OutOfMemory);
    };
    if number.place == held {
        if size >= limit - *seen {
            return Err(HuntError::TooMany { limit });
        }
        *seen += size + 1;
    }
    Ok(number)
}

/// The numbers of the ends of drawn items on their shelves. Adds the parts of keys that are new
/// there; `TooMany` if they pass the limit, `OutOfMemory` if memory is refused.
pub(crate) fn shelve_ends<P: Itemized>(
    alloc: Global,
    round: &mut Round<P>,
    seen: &mut u64,
    limit: u64,
    ends: Vec<P::Key>,
) -> Result<Vec<Number>, HuntError>
    requires ends { (k : P.Key) → Has ends.items k → (i : ℕ) × IsItem (P.first_of round.old.about)
        round.old.core.drawn i × P.is_end round.old.about i k }
    requires sixteen { length round.old.core.shelves ≡ 16 }
    requires counted { seen.old ≡ total (key_parts P.Key.entries_of)
        (all_on round.old.core.shelves) }
    requires within { seen.old ≤ limit }
    requires limit { limit ≤ most_parts }
    ensures about { round.new.about ≡ round.old.about }
    ensures core { OnOk result (round.new.core ≡ with_keys P.Key.eq P.Key.shelf_of round.old.core
        ends.items) }
    ensures named { IfOk result (λ r. NameOn round.new.core.shelves ends.items r.items) }
    ensures counted { OnOk result (seen.new ≡ total (key_parts P.Key.entries_of)
        (all_on round.new.core.shelves)) }
    ensures within { OnOk result (seen.new ≤ limit) }
    ensures more { IfErr result (IfTooMany limit (ShelvesHaveMore P.Key.eq P.Key.shelf_of
        (key_parts P.Key.entries_of) round.old.core (Has ends.items) limit)) }
{
    let Ok(mut numbers) = Vec::with_capacity(alloc, ends.len()) else {
        return Err(HuntError::OutOfMemory);
    };
    for key in ends {
        let number = match shelve_key(round, seen, limit, key) {
            Ok(number) => number,
            Err(error) => return Err(error),
        };
        let Ok(()) = numbers.push(number) else {
            return Err(HuntError::OutOfMemory);
        };
    }
    Ok(numbers)
}
