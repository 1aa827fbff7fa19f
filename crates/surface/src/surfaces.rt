use crate::tables::Tables;
use grid::Shape;

// A surface over four lent tables: which cells are marched, the number of the vertex on each grid edge, the vertices and the triangles.
#[derive(Drop)]
pub struct Surface<'a> {
    pub(crate) shape: Shape,
    pub(crate) marks: &'a mut [bool],
    pub(crate) tables: Tables<'a>,
}
