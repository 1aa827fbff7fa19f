ghost use Rattle.std.specs.Prelude.{◌^◌, ◌≤◌};

use std::fmt;

// How many grid points, edges, triangles and tetrahedra have all corners inside. No grid has more than the limit allows.
#[derive(Clone, Copy, PartialEq, Eq, Debug)]
pub struct Census {
    pub points: u64,
    pub edges: u64,
    pub triangles: u64,
    pub tetrahedra: u64,
    ghost small: { (points ≤ 2 ^ 40) × (edges ≤ 2 ^ 40) × (triangles ≤ 2 ^ 40) × (tetrahedra ≤ 2 ^ 40) },
}

// A census prints each of its numbers before the name of what it counts.
impl fmt::Display for Census {
    ghost use Rattle.std.specs.Prelude.{Some};
    ghost use Rattle.census.specs.Texts.{census_text};

    ghost output = { λ census. Some (census_text census) };

    fn fmt<W: fmt::Write>(&self, f: &mut fmt::Formatter<W>) -> fmt::Result {
        let Census {
            points,
            edges,
            triangles,
            tetrahedra,
        } = *self;
        write!(
            f,
            "{points} points, {edges} edges, {triangles} triangles, {tetrahedra} tetrahedra"
        )
    }
}
