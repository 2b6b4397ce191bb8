//! What each operation of the program makes of the values of its files: the definitions of its text
//! and of what it makes on the way, and the statuses with which a run ends, with the lemmas that
//! tie texts to the files that were read. No text is made here: `tib_texts` and `tib_hunted_texts`
//! do.
#![tactic(auto)]

mod status;

pub use status::Status;
