//! Canonical forms. That of a grammar is trimmed, with canonical names, equal rules merged, and
//! sorted. In that of a reached set as a transducer the states are the keys, the start first and
//! the others in ascending order, equal rules are merged at the least cost, and the rules are
//! sorted; nothing is trimmed.
#![tactic(auto)]

mod begin;
mod form;
mod laws;
mod lines;
mod merging;
mod names;
mod numbering;
mod ordering;
mod renaming;
mod splitting;
mod taking;
mod texts;
mod transducer_keys;
mod transducer_laws;
mod transducer_lines;
mod transducer_merging;
mod transducer_ordering;
mod transducer_taking;

pub use begin::{Begin, Finals, to_grammar};
pub use form::canonical;
pub use laws::{
    canonical_forms_exist, canonical_is_one, canonical_is_printable,
    canonical_keeps_deterministic_form, canonical_over_keys_exists, canonical_text_is_one,
    canonical_texts_are_read, fresh_start_keeps_deterministic_form, fresh_start_keeps_the_series,
    insides_are_one_by_text, keys_have_one_canonical, keys_keep_the_series,
    normal_forms_are_printable, normal_forms_have_one_canonical, normal_texts_are_read,
    order_is_one, order_keeps_deterministic_form, order_keeps_the_series, over_keys_are_printable,
    over_keys_texts_are_read, trimmed_forms_have_the_same_rules, trimmed_is_printable,
    trimming_keeps_deterministic_form,
};
pub use lines::Line;
pub use names::numbered_names;
pub use numbering::{numbers_of, states_by_keys};
pub use ordering::Printed;
pub use texts::text_of;
pub use transducer_keys::to_transducer;
pub use transducer_laws::{
    canonical_transducers_exist, composition_text_is_one, compositions_have_texts,
    compositions_have_their_series, keys_have_one_transducer, keys_keep_the_transducer_series,
    transducer_text_is_one, transducer_texts_are_read,
};
pub use transducer_ordering::PrintedTransducer;
