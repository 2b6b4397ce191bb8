//! The texts of the operations that hunt: the canonical forms of what `tib_reached` finds, by one
//! worker or by several, the line of a comparison, the lines of counts, and the summary of `demo`;
//! or the status with which the run ends. It knows neither words nor files.
#![tactic(auto)]

mod backward;
mod compare;
mod compose;
mod copies;
mod count;
mod counted;
mod demo;
mod determinize;
mod difference;
mod domain;
mod forward;
mod image;
mod intersect;
mod parse;

pub use backward::{inverse_image_of, inverse_image_of_together};
pub use compare::{comparison_of, comparison_of_together};
pub use compose::{composition_of, composition_of_together};
pub use count::{count_of, count_of_together};
pub use demo::{demo_of, demo_of_together, demo_text, summary_of, summary_of_together};
pub use determinize::{determinization_of, determinization_of_together};
pub use difference::{difference_of, difference_of_together};
pub use domain::{domain_of, domain_of_together};
pub use forward::{forward_image_of, forward_image_of_together};
pub use image::{outputs_of, outputs_of_together};
pub use intersect::{intersection_of, intersection_of_together};
pub use parse::{parse_of, parse_of_together};
