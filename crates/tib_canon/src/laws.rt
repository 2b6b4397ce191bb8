// What holds for canonical forms.
ghost use Rattle.tib_canon.specs.Laws.{FreshKeepsSeries, TrimmingKeepsDeterministic, OrderKeepsDeterministic, CanonicalKeepsDeterministic, FreshKeepsDeterministic, OrderIsOne, CanonicalIsOne, FormsHaveOneCanonical, OrderKeepsSeries, KeysKeepSeries, TrimmedFormsHaveSameRules, KeysHaveOneCanonical, FormsArePrintable, TrimmedIsPrintable, CanonicalIsPrintable, OverKeysArePrintable, CanonicalTextsAreRead, FormTextsAreRead, OverKeysTextsAreRead, CanonicalTextIsOne, InsidesAreOneByText, CanonicalFormsExist, OverKeysHaveCanonical};

use tib_cost::Semiring;
use tib_expand::TableKey;

/// A grammar has at most one form with canonical names in canonical order.
pub fn order_is_one()
    ensures { OrderIsOne }
{}

/// A grammar has at most one canonical form. This requires that in a right-hand side nothing is
/// below a state, as in every `Grammar`.
pub fn canonical_is_one()
    ensures { CanonicalIsOne }
{}

/// All normal forms of a grammar have one canonical form.
pub fn normal_forms_have_one_canonical<S: Semiring>()
    ensures { FormsHaveOneCanonical S.product }
{}

/// Canonical names and canonical order keep the series.
pub fn order_keeps_the_series<S: Semiring>()
    ensures { OrderKeepsSeries S.product }
{}

/// A canonical grammar over keys has the series of the rules over their positions, at the position
/// of the start.
pub fn keys_keep_the_series<K: TableKey>()
    ensures { KeysKeepSeries K.cmp }
{}

/// A canonical grammar over keys after a fresh start has the series of the rules with its chain
/// rules.
pub fn fresh_start_keeps_the_series<K: TableKey>()
    ensures { FreshKeepsSeries K.cmp }
{}

/// Trimming keeps deterministic form.
pub fn trimming_keeps_deterministic_form()
    ensures { TrimmingKeepsDeterministic }
{}

/// Canonical names and canonical order keep deterministic form.
pub fn order_keeps_deterministic_form()
    ensures { OrderKeepsDeterministic }
{}

/// The canonical form of a grammar in deterministic form is in deterministic form.
pub fn canonical_keeps_deterministic_form()
    ensures { CanonicalKeepsDeterministic }
{}

/// A canonical grammar over keys after a fresh start is in deterministic form if the rules with its
/// chain rules are.
pub fn fresh_start_keeps_deterministic_form<K: TableKey>()
    ensures { FreshKeepsDeterministic K.cmp }
{}

/// All trimmed normal forms of a grammar have the same rules, each once.
pub fn trimmed_forms_have_the_same_rules()
    ensures { TrimmedFormsHaveSameRules }
{}

/// Rules over the positions of an order have one canonical grammar over its keys, whatever their
/// order and however often one of them occurs.
pub fn keys_have_one_canonical<K: TableKey>()
    ensures { KeysHaveOneCanonical K.cmp }
{}

/// A normal form can be printed if the grammar can.
pub fn normal_forms_are_printable<S: Semiring>()
    ensures { FormsArePrintable S.product }
{}

/// A trimmed grammar can be printed if the grammar can.
pub fn trimmed_is_printable()
    ensures { TrimmedIsPrintable }
{}

/// A canonical form can be printed if the grammar can.
pub fn canonical_is_printable()
    ensures { CanonicalIsPrintable }
{}

/// A grammar over keys can be printed if the rules over positions with its start can.
pub fn over_keys_are_printable<K: TableKey>()
    ensures { OverKeysArePrintable K.cmp }
{}

/// The text of a canonical form is the text of exactly this grammar: its states keep their numbers,
/// and its rules their order.
pub fn canonical_texts_are_read<S: Semiring>()
    ensures { CanonicalTextsAreRead S.product }
{}

/// The text of the canonical form of a grammar's normal form is the text of exactly this form.
pub fn normal_texts_are_read<S: Semiring>()
    ensures { FormTextsAreRead S.product }
{}

/// The text of a canonical grammar over keys is the text of exactly this grammar.
pub fn over_keys_texts_are_read<S: Semiring, K: TableKey>()
    ensures { OverKeysTextsAreRead S.product K.cmp }
{}

/// The text of the canonical form of a normal form does not depend on the numbers of labels:
/// grammars that agree by the texts of their labels, each over a table of distinct labels of its
/// own, have one text of it.
pub fn canonical_text_is_one<S: Semiring>()
    ensures { CanonicalTextIsOne S.product }
{}

/// Grammars that agree by the texts of their labels have the same inside costs.
pub fn insides_are_one_by_text()
    ensures { InsidesAreOneByText }
{}

/// It is impossible that a printable grammar has no canonical form with its series.
pub fn canonical_forms_exist<S: Semiring>()
    ensures { CanonicalFormsExist S.product }
{}

/// It is also impossible that printable rules, over the positions of an order of distinct keys,
/// have no canonical grammar over these keys with a start.
pub fn canonical_over_keys_exists<S: Semiring, K: TableKey>()
    ensures { OverKeysHaveCanonical S.product K.cmp }
{}
