//! The reached set of each construction, hunted by one worker or by several: what `tib_hunt` finds
//! for the operations of the crates below, as their definitions state it.
#![tactic(auto)]

mod backward;
mod comparison;
mod composition;
mod determinization;
mod difference;
mod forward;
mod hunters;
mod intersection;
mod parsing;
mod tree_image;

pub use backward::{apply_backward, apply_backward_together};
pub use comparison::{compare_alone, compare_supports};
pub use composition::{compose, compose_together};
pub use determinization::{determinize, determinize_together};
pub use difference::{subtract, subtract_together};
pub use forward::{apply_forward, apply_forward_together};
pub use hunters::Hunters;
pub use intersection::{intersect, intersect_together};
pub use parsing::{parse, parse_together};
pub use tree_image::{image, image_together};
