// What holds for the composite transducer, in every semiring.
ghost use Rattle.tib_key_edges.specs.Composing.{CompositeIsShaped, RunsHaveTriples, TriplesHaveRuns, IsComposed, ComposesSeries};
ghost use Rattle.tib_key_edges.specs.Composition.{EndsAreInRange, IsOneSet, ReachedIsComposite};
ghost use Rattle.tib_key_edges.specs.Completions.{SearchIsWhole, SearchPutsOut};
ghost use Rattle.tib_key_edges.specs.Leasts.{LeastsAreLeast};
ghost use Rattle.tib_key_edges.specs.Flat.{TranslatesInPreorder, TranslationsEndInHoles};
ghost use Rattle.tib_key_edges.specs.Pieces.{SearchGoesByPieces};
ghost use Rattle.tib_key_edges.specs.Numbering.{NumberedSeries};
ghost use Rattle.tib_key_edges.specs.Choices.{ChoicesAreAll, EdgesAreListed};

use tib_cost::Semiring;

/// Each run of the composite transducer has a middle tree and two runs, and the product of their
/// costs is its cost.
pub fn runs_have_triples<S: Semiring>()
    ensures { RunsHaveTriples S.product }
{}

/// A middle tree and two runs, the product of whose costs is at most the greatest cost, have a run
/// of the composite transducer at that product.
pub fn triples_have_runs<S: Semiring>()
    ensures { TriplesHaveRuns S.product }
{}

/// The series of the composite transducer is the least cost over all middle trees and two runs.
pub fn composed<S: Semiring>()
    ensures { IsComposed S.product }
{}

/// The series of the composite transducer is the least product of the two series over all middle
/// trees.
pub fn composes_series<S: Semiring>()
    ensures { ComposesSeries S.product }
{}

/// The reached set of the pairs is the composite transducer.
pub fn reached_is_composite<S: Semiring>()
    ensures { ReachedIsComposite S.product }
{}

/// Two reached sets have the same pairs in the same order, and the same edges.
pub fn reached_set_is_one<S: Semiring>()
    ensures { IsOneSet S.product }
{}

/// The rules of the composite transducer have their shape if those of the first one do.
pub fn composite_is_shaped<S: Semiring>()
    ensures { CompositeIsShaped S.product }
{}

/// The list of the choices that translate a side has each of them, once.
pub fn choices_are_all()
    ensures { ChoicesAreAll }
{}

/// The list of the edges of a pair has each of them, as often as origins give it.
pub fn edges_are_listed<S: Semiring>()
    ensures { EdgesAreListed S.product }
{}

/// New numbers for the states keep the series of each.
pub fn numbers_keep_the_series<S: Semiring>()
    ensures { NumberedSeries S.product }
{}

/// The ends of an edge are within the states of the two transducers.
pub fn ends_are_in_range<S: Semiring>()
    ensures { EndsAreInRange S.product }
{}

/// The translation by a rule is the preorder of its right-hand side with the translations below in
/// place of its pairs.
pub fn translates_in_preorder()
    ensures { TranslatesInPreorder }
{}

/// Nothing is below a hole of a translation.
pub fn translations_end_in_holes()
    ensures { TranslationsEndInHoles }
{}

/// A search that takes the first side first and tries each rule finds all choices that translate a
/// side, in their order.
pub fn search_is_whole<S: Semiring>()
    ensures { SearchIsWhole S.product }
{}

/// Such a search outputs the preorder of each translation from left to right.
pub fn search_puts_out()
    ensures { SearchPutsOut }
{}

/// A search that outputs one piece after another finds the results of all choices, in their order.
pub fn search_goes_by_pieces<S: Semiring>()
    ensures { SearchGoesByPieces S.product }
{}

/// Recursion on the side gives the least cost of a choice that translates a side.
pub fn leasts_are_least<S: Semiring>()
    ensures { LeastsAreLeast S.product }
{}
