ghost use Rattle.std.specs.Prelude.{ℕ};
ghost use Rattle.census.specs.Counts.{Nothing, SumFits, Sum};

use crate::counts::Census;
use std::ops::AddAssign;

// The census of nothing.
impl Default for Census {
    ghost is_default = { Nothing };

    fn default() -> Census {
        Census {
            points: 0,
            edges: 0,
            triangles: 0,
            tetrahedra: 0,
        }
    }
}

// The census of two parts.
impl AddAssign for Census {
    ghost can_add_assign = { SumFits };

    ghost add_assign_gives = { Sum };

    fn add_assign(&mut self, part: Census) {
        *self = Census {
            points: self.points + part.points,
            edges: self.edges + part.edges,
            triangles: self.triangles + part.triangles,
            tetrahedra: self.tetrahedra + part.tetrahedra,
        };
    }
}
