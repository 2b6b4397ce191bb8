// The classes of a transducer.
ghost use Rattle.std.specs.Prelude.{◌≡◌, IfSome, None, true, false};
ghost use Rattle.tib_transducer.specs.Classes.{IsLinear, AreLinear, IsNondeleting, AreNondeleting, IsExtended, OneIsExtended, IsLabelled, OneIsLabelled};
ghost use Rattle.tib_transducer.specs.Outside.{demands, IsFirst, IsFirstOutside, AllMeet};

use crate::rules::fault_of;
use crate::{ClassFault, Transducer};

/// The number of the first rule that is outside one of the demanded classes, and the first class
/// that it is outside of, in the order of the arguments: linear, nondeleting, not extended
/// (`one_label`), not labelled (`unlabelled`), strict: no right side is a lone pair. It returns
/// none exactly where each rule is of each demanded class. It takes no memory. Its time is that of
/// one pass over the rules up to the one that it names, but it scans a right side once for each 64
/// variables of the left side.
pub fn first_outside<S>(
    t: &Transducer<S>,
    linear: bool,
    nondeleting: bool,
    one_label: bool,
    unlabelled: bool,
    strict: bool,
) -> Option<(u32, ClassFault)>
    ensures some { IfSome result (IsFirstOutside
        (demands linear nondeleting one_label unlabelled strict) t.now.rules) }
    ensures none { result ≡ None → AllMeet
        (demands linear nondeleting one_label unlabelled strict) t.now.rules }
{
    t.is_sound();
    let mut number: u32 = 0;
    for rule in t.rule_list() {
        number += 1;
        if let Some(fault) = fault_of(rule, linear, nondeleting, one_label, unlabelled, strict) {
            return Some((number, fault));
        }
    }
    None
}

/// The number of the first rule that is not linear: a variable occurs twice on its right side. It
/// returns none exactly where all rules are linear. It takes no memory, and the time of
/// `first_outside`.
pub fn not_linear<S>(t: &Transducer<S>) -> Option<u32>
    ensures some { IfSome result (IsFirst (λ r. IsLinear r → ⊥) IsLinear t.now.rules) }
    ensures none { result ≡ None → AreLinear t.now.rules }
{
    first_outside(t, true, false, false, false, false).map(|(number, _)| number)
}

/// The number of the first rule that is not nondeleting: a variable of its left side does not occur
/// on its right side. It returns none exactly where all rules are nondeleting. It takes no memory,
/// and the time of `first_outside`.
pub fn not_nondeleting<S>(t: &Transducer<S>) -> Option<u32>
    ensures some { IfSome result (IsFirst (λ r. IsNondeleting r → ⊥) IsNondeleting t.now.rules) }
    ensures none { result ≡ None → AreNondeleting t.now.rules }
{
    first_outside(t, false, true, false, false, false).map(|(number, _)| number)
}

/// The number of the first extended rule: its left side has more than one label. It returns none
/// exactly where no rule is extended. It takes no memory, and the time of one pass over the left
/// sides.
pub fn extended<S>(t: &Transducer<S>) -> Option<u32>
    ensures some { IfSome result (IsFirst IsExtended (λ r. IsExtended r → ⊥) t.now.rules) }
    ensures none { result ≡ None → OneIsExtended t.now.rules → ⊥ }
{
    first_outside(t, false, false, true, false, false).map(|(number, _)| number)
}

/// The number of the first labelled rule: a variable of its left side has a label. It returns none
/// exactly where no rule is labelled. It takes no memory, and the time of one pass over the left
/// sides.
pub fn labelled<S>(t: &Transducer<S>) -> Option<u32>
    ensures some { IfSome result (IsFirst IsLabelled (λ r. IsLabelled r → ⊥) t.now.rules) }
    ensures none { result ≡ None → OneIsLabelled t.now.rules → ⊥ }
{
    first_outside(t, false, false, false, true, false).map(|(number, _)| number)
}
