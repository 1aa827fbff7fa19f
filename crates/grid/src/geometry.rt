ghost use Rattle.std.specs.Prelude.{◌≡◌};
ghost use Rattle.grid.specs.Cases.{swap};

// A grid point.
#[derive(Clone, Copy, PartialEq, Eq, Debug, Default)]
pub struct Point {
    pub x: u8,
    pub y: u8,
    pub z: u8,
}

// A grid edge: its lower end, and its direction, 1 to 7, whose bits 0, 1 and 2 say whether the upper end lies one further along
// x, y and z.
#[derive(Clone, Copy, PartialEq, Eq, Debug, Default)]
pub struct GridEdge {
    pub low: Point,
    pub direction: u8,
}

// Three corners, in the order in which a triangle runs round.
#[derive(Clone, Copy, PartialEq, Eq, Debug, Default)]
pub struct Triangle<T> {
    pub a: T,
    pub b: T,
    pub c: T,
}

impl<T> Triangle<T> {
    // The triangle that runs round the other way.
    #[tactic(auto, unfolding(crate::specs::Cases::swap))]
    pub(crate) fn reversed(self) -> Triangle<T>
        ensures { result ≡ swap self }
    {
        Triangle {
            a: self.a,
            b: self.c,
            c: self.b,
        }
    }
}

// An edge of a tetrahedron, by the positions of its two corners.
#[derive(Clone, Copy, PartialEq, Eq, Debug)]
pub enum TetEdge {
    E01,
    E02,
    E03,
    E12,
    E13,
    E23,
}

// An edge of a cell: from the corner of a code in a direction.
#[derive(Clone, Copy)]
pub struct Span {
    pub corner: u8,
    pub direction: u8,
}

// A grid triangle: its lowest corner, and the codes of the steps to the other two.
#[derive(Clone, Copy, PartialEq, Eq, Debug)]
pub struct GridTriangle {
    pub low: Point,
    pub a: u8,
    pub b: u8,
}
