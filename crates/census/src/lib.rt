#![tactic(auto)]

mod cells;
mod counts;
mod euler;
mod grids;
mod sums;

pub use counts::Census;
pub use grids::take;
