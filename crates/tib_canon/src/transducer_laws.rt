// What holds for canonical transducers.
ghost use Rattle.tib_canon.specs.TransducerLaws.{KeysHaveOneTransducer, KeysKeepTransducerSeries, KeysHaveTransducer, TransducerTextsAreRead, TransducerTextIsOne, CompositionsHaveTexts, CompositionTextIsOne, CompositionsHaveSeries, SeriesIsOneByName, TextHasOneTransducer};

use tib_cost::Semiring;
use tib_expand::TableKey;

/// Rules over the positions of an order have one canonical transducer over its keys, whatever their
/// order and however often one of them occurs.
pub fn keys_have_one_transducer<K: TableKey>()
    ensures { KeysHaveOneTransducer K.cmp }
{}

/// A canonical transducer over keys has the series of the rules over their positions, from the
/// start.
pub fn keys_keep_the_transducer_series<S: Semiring, K: TableKey>()
    ensures { KeysKeepTransducerSeries S.product K.cmp }
{}

/// It is impossible that printable rules, over the positions of an order of distinct keys, have no
/// canonical transducer over these keys.
pub fn canonical_transducers_exist<K: TableKey>()
    ensures { KeysHaveTransducer K.cmp }
{}

/// If each key but the start is in a rule, the text of a canonical transducer reads back as this
/// transducer, states by their names.
pub fn transducer_texts_are_read<K: TableKey>()
    ensures { TransducerTextsAreRead K.cmp }
{}

/// The text of a canonical transducer does not depend on the numbers of labels.
pub fn transducer_text_is_one<K: TableKey>()
    ensures { TransducerTextIsOne K.cmp }
{}

/// If the pairs of the states of two printable transducers are reached within the limit, and the
/// second is linear, nondeleting, not extended and not labelled, it is impossible that there is no
/// text of their canonical composition.
pub fn compositions_have_texts<S: Semiring>()
    ensures { CompositionsHaveTexts S.product }
{}

/// The text of the canonical composition of two transducers does not depend on the numbers of
/// labels.
pub fn composition_text_is_one<S: Semiring>()
    ensures { CompositionTextIsOne S.product }
{}

/// The canonical transducer of the composition gives each two trees the least cost of doing the
/// first and then the second.
pub fn compositions_have_their_series<S: Semiring>()
    ensures { CompositionsHaveSeries S.product }
{}

/// Transducers that differ only in the numbers of their states have one series. So what a text of a
/// canonical transducer reads back as has its series.
pub fn series_is_one_by_name<S: Semiring>()
    ensures { SeriesIsOneByName S.product }
{}

/// Bytes are the text of at most one transducer over one table of distinct labels, however many
/// nodes its sides have, and its states have distinct names.
pub fn text_has_one_transducer()
    ensures { TextHasOneTransducer }
{}
