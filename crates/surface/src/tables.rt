ghost use Rattle.surface.specs.States.{numbering};
ghost use Rattle.surface.specs.Ties.{Tied};

use crate::records::Records;
use grid::{GridEdge, Triangle};
use keymap::KeyMap;
use mesh::Vertex;

// The vertices so far: the map tells the number of the one on a grid edge, and its record has that number.
#[derive(Drop)]
pub struct Numbering<'a> {
    pub(crate) map: KeyMap<'a, GridEdge>,
    pub(crate) vertices: Records<'a, Vertex>,
    ghost tied: { ∥ Tied (numbering map.entries.now vertices.items.now vertices.count) ∥₁ },
}

// The vertices and the triangles so far.
#[derive(Drop)]
pub struct Tables<'a> {
    pub(crate) numbering: Numbering<'a>,
    pub(crate) triangles: Records<'a, Triangle<u32>>,
}
