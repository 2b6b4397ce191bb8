//! What holds of cuts.

ghost use Rattle.tib_strings.specs.CutLists.{ReachesByCuts};

/// A list has a cut exactly where the table over its ends and the places says so.
pub fn reaches_by_cuts()
    ensures { ReachesByCuts }
{}
