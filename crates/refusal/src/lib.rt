// Why calls are refused: one enum for all crates, with its numbers and places.
#![tactic(auto)]

mod refusals;

pub use refusals::{Axis, Code, Part, Refusal};
