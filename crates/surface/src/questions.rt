ghost use Rattle.std.specs.Prelude.{◌≡◌, ℕ, take};
ghost use Rattle.surface.specs.Questions.{RecordAnswer};
ghost use Rattle.surface.specs.Views.{state};

use crate::sizes::Counts;
use crate::surfaces::Surface;
use grid::Triangle;
use mesh::Vertex;
use refusal::Refusal;

impl Surface<'_> {
    // How many vertices and triangles there are.
    pub fn counts(&self) -> Counts
        ensures vertices { result.vertices ≡ (state self.now).tables.numbered.count }
        ensures triangles { result.triangles ≡ (state self.now).tables.count }
    {
        Counts {
            vertices: self.tables.numbering.vertices.count,
            triangles: self.tables.triangles.count,
        }
    }

    // The vertex of a number.
    pub fn vertex(&self, n: u32) -> Result<Vertex, Refusal>
        ensures { RecordAnswer (state self.now).tables.numbered.vertices (state self.now).tables.numbered.count n result }
    {
        self.tables.numbering.vertices.get(n)
    }

    // The triangle of a number.
    pub fn triangle(&self, n: u32) -> Result<Triangle<u32>, Refusal>
        ensures { RecordAnswer (state self.now).tables.triangles (state self.now).tables.count n result }
    {
        self.tables.triangles.get(n)
    }

    // All vertices, in the order of their numbers.
    pub fn vertices(&self) -> &[Vertex]
        ensures { result.now ≡ take (state self.now).tables.numbered.count (state self.now).tables.numbered.vertices }
    {
        self.tables.numbering.vertices.as_slice()
    }

    // All triangles, in the order of their numbers.
    pub fn triangles(&self) -> &[Triangle<u32>]
        ensures { result.now ≡ take (state self.now).tables.count (state self.now).tables.triangles }
    {
        self.tables.triangles.as_slice()
    }
}
