ghost use Rattle.std.specs.Prelude.{map};
ghost use Rattle.page.specs.Whole.{mesh, LinesAnswer, PageAnswer};

use crate::states::{Finished, begin};
use grid::Triangle;
use mesh::Located;
use refusal::Refusal;

// Writes the lines of a mesh's page, until one is refused.
fn write_lines<P: Located>(
    buffer: &mut [u8],
    vertices: &[P],
    triangles: &[Triangle<u32>],
) -> Result<Finished, Refusal>
    ensures { LinesAnswer (mesh (map P.Located.place vertices.now) triangles.now) buffer.old buffer.new result }
{
    let mut open = begin(buffer, vertices.len() as u64, triangles.len() as u64)?;
    for vertex in vertices {
        open = open.vertex(buffer, vertex.coordinates())?;
    }
    let mut faces = open.end_vertices()?;
    for triangle in triangles {
        faces = faces.face(buffer, *triangle)?;
    }
    Ok(faces.finish()?)
}

// Writes the page of a mesh at the start of the buffer, and answers how many bytes it takes. Where a line is refused, the lines
// before it stay.
pub fn write_page<P: Located>(
    buffer: &mut [u8],
    vertices: &[P],
    triangles: &[Triangle<u32>],
) -> Result<usize, Refusal>
    ensures { PageAnswer (mesh (map P.Located.place vertices.now) triangles.now) buffer.old buffer.new result }
{
    Ok(write_lines(buffer, vertices, triangles)?.length())
}
