#![tactic(auto)]

mod states;
mod text;
mod whole;

pub use states::{Declined, Finished, OpenForFaces, OpenForVertices, begin};
pub use whole::write_page;
