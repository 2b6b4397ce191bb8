// What holds of every normal form, in every semiring.
ghost use Rattle.tib_normal.specs.NormalForm.{IsNormalized};
ghost use Rattle.tib_normal.specs.Rows.{AreOneSize, HaveForms, HaveNotBoth, HaveOne};

use tib_cost::Semiring;

/// A normal form has the series of the grammar, at each of the grammar's states.
pub fn normalized<S: Semiring>()
    ensures { IsNormalized S.product }
{}

/// All normal forms of one grammar have as many parts.
pub fn parts_are_one<S: Semiring>()
    ensures { AreOneSize S.product }
{}

/// Each grammar has a normal form, since it can't be that there is none: so what holds of all its
/// normal forms holds of at least one. Of "one has at most as many parts as the limit" and "each
/// has more parts than the limit" not both hold, and it can't be that neither does.
pub fn normal_forms_exist<S: Semiring>()
    ensures exist { HaveForms S.product }
    ensures not_both { HaveNotBoth S.product }
    ensures not_neither { HaveOne S.product }
{}
