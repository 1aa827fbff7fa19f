ghost use Rattle.std.specs.Prelude.{◌≡◌};
ghost use Rattle.mesh.specs.Sides.{edge_ends, edge_hash, reverse, edges_of};

use grid::Triangle;
use keymap::Key;

// A directed edge of a mesh, from one vertex number to another.
#[derive(Clone, Copy, PartialEq, Eq, Debug)]
pub struct DirectedEdge {
    pub from: u32,
    pub to: u32,
}

impl DirectedEdge {
    // The edge of the same ends in the other direction.
    pub(crate) fn reversed(self) -> DirectedEdge
        ensures { result ≡ reverse self }
    {
        DirectedEdge {
            from: self.to,
            to: self.from,
        }
    }
}

impl Key for DirectedEdge {
    ghost meaning = { edge_ends };

    ghost hashed = { edge_hash };

    fn same(&self, other: &DirectedEdge) -> bool {
        self == other
    }

    fn hash(&self) -> u32 {
        self.from.wrapping_mul(65_599).wrapping_add(self.to)
    }
}

// The directed edges that a triangle runs along: from its first corner, its second and its third.
pub(crate) fn directed_edges(t: Triangle<u32>) -> [DirectedEdge; 3]
    ensures { result ≡ edges_of t }
{
    [
        DirectedEdge { from: t.a, to: t.b },
        DirectedEdge { from: t.b, to: t.c },
        DirectedEdge { from: t.c, to: t.a },
    ]
}
