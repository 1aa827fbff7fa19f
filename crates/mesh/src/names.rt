ghost use Rattle.std.specs.Prelude.{ℕ, length, Decides};
ghost use Rattle.mesh.specs.First.{Clear, First};
ghost use Rattle.mesh.specs.Faults.{Misnames, Misnamed};

use grid::Triangle;

// A mesh whose triangles each name three different vertices, all of them below `vertices`.
#[derive(Clone, Copy)]
pub(crate) struct NamedMesh<'a> {
    pub vertices: u32,
    pub triangles: &'a [Triangle<u32>],
    ghost named: { Clear (Misnamed vertices triangles.now) (length triangles.now) },
}

// Whether a triangle names a vertex that is not below `vertices`, or one vertex twice.
fn misnames(vertices: u32, t: Triangle<u32>) -> bool
    ensures { Decides result (Misnames vertices t) }
{
    t.a >= vertices || t.b >= vertices || t.c >= vertices || t.a == t.b || t.b == t.c || t.c == t.a
}

// The first triangle that names a vertex that is not below `vertices`, or one vertex twice.
pub(crate) fn first_misnamed(vertices: u32, triangles: &[Triangle<u32>]) -> Option<usize>
    ensures { First (Misnamed vertices triangles.now) (length triangles.now) result }
{
    triangles.iter().position(|t| misnames(vertices, *t))
}
