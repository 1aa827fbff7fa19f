#![tactic(auto)]

mod edges;
mod groups;
mod inspection;
mod names;
mod parts;
mod records;
mod rings;
mod sides;
mod verdicts;

pub use inspection::inspect;
pub use records::{Coordinates, Located, Vertex};
pub use sides::DirectedEdge;
pub use verdicts::{Counts, Verdict, VertexRecord};
