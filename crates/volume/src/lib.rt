#![tactic(auto)]

mod densities;
mod file_kinds;
mod files;
mod fractions;
mod insides;
mod kinds;
mod labels;
mod levels;
mod numbers;
mod phantoms;
mod ratios;
mod samples;
mod tables;
mod volumes;

pub use files::{FileHeader, read_file};
pub use fractions::Fraction;
pub use insides::answer_inside;
pub use kinds::SampleKind;
pub use levels::AtLevel;
pub use phantoms::Phantom;
pub use samples::{Density, Label, Ratio, RatioParts};
pub use tables::TableVolume;
pub use volumes::Volume;
