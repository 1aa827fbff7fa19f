// A map from keys to numbers over a lent slice of entries, by open addressing with linear probing.
#![tactic(auto)]

mod map;
mod table;

pub use map::{KeyMap, number_of};
pub use table::{Entry, Full, Key};
