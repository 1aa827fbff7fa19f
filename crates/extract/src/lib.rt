#![tactic(auto)]

mod cells;
mod failures;
mod files;

pub use files::skin;
