#![tactic(auto)]

mod bounds;
mod cells;
mod edge_keys;
mod geometry;
mod keys;
mod marching;
mod shapes;

pub use cells::Cell;
pub use geometry::{GridEdge, GridTriangle, Point, Span, TetEdge, Triangle};
pub use marching::{CellEdges, CellTriangles};
pub use refusal::{Axis, Code, Refusal};
pub use shapes::Shape;
