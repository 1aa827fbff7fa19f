#![tactic(auto)]

mod adding;
mod answers;
mod calls;
mod fields;
mod needs;
mod numbering;
mod questions;
mod records;
mod sizes;
mod surfaces;
mod tables;

pub use fields::Field;
pub use sizes::Counts;
pub use surfaces::Surface;
