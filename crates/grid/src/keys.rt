ghost use Rattle.std.specs.Prelude.{◌≡◌, ℕ, ◌+◌, ◌*◌, ◌<◌, ◌≤◌, IfSome, Some, None};
ghost use Rattle.grid.specs.Points.{point_number, at_end as side_end, on_border, edge_key, edge_of, TopAnswer, Keyed, KeysDiffer};
ghost use Rattle.grid.specs.Shapes.{sides, NumberOf};
ghost use Rattle.grid.specs.GridTriangles.{TriangleAnswer};

use crate::geometry::{GridEdge, GridTriangle, Point};
use crate::shapes::Shape;

impl Point {
    // The number of the point.
    pub fn number(self) -> u32
        ensures { result ≡ point_number self }
    {
        u32::from(self.x) + 256 * u32::from(self.y) + 65_536 * u32::from(self.z)
    }
}

impl GridEdge {
    // The key of the edge: different edges have different keys.
    pub fn key(self) -> u32
        ensures value { result ≡ edge_key self }
        ensures apart { KeysDiffer }
    {
        8 * self.low.number() + u32::from(self.direction)
    }

    // The upper end, where its coordinates have 8 bits.
    pub fn top(self) -> Option<Point>
        ensures { TopAnswer self result }
    {
        Some(Point {
            x: self.low.x.checked_add(self.direction % 2)?,
            y: self.low.y.checked_add(self.direction / 2 % 2)?,
            z: self.low.z.checked_add(self.direction / 4 % 2)?,
        })
    }

    // The edge of a key, where a number is one.
    pub fn from_key(key: u32) -> Option<GridEdge>
        ensures value { result ≡ edge_of key }
        ensures back { IfSome result (λ e. edge_key e ≡ key × Keyed e) }
    {
        if key >= 134_217_728 || key % 8 == 0 {
            return None;
        }
        let [x, y, z, _] = (key / 8).to_le_bytes();
        Some(GridEdge {
            low: Point { x, y, z },
            direction: (key % 8) as u8,
        })
    }
}

// Whether a coordinate is 0 or the side plus 1.
fn at_end(side: u8, c: u8) -> bool
    requires { side ≤ 254 }
    ensures { result ≡ side_end side c }
{
    c == 0 || c == side + 1
}

impl Shape {
    // Whether a point is on the border: a point of the grid of which some coordinate is 0 or the side plus 1.
    pub fn on_border(self, p: Point) -> bool
        ensures { result ≡ on_border (sides self) p }
    {
        let within = p.x <= self.nx + 1 && p.y <= self.ny + 1 && p.z <= self.nz + 1;
        within && (at_end(self.nx, p.x) || at_end(self.ny, p.y) || at_end(self.nz, p.z))
    }

    // The number of the cell at a base, where there is one.
    pub fn cell_number(self, base: Point) -> Option<u32>
        ensures { NumberOf (sides self) base result }
    {
        if base.x > self.nx || base.y > self.ny || base.z > self.nz {
            return None;
        }
        let row = u32::from(self.nx) + 1;
        let column = u32::from(self.ny) + 1;
        Some(u32::from(base.x) + row * (u32::from(base.y) + column * u32::from(base.z)))
    }
}

impl GridTriangle {
    // The grid triangle with the corners P, P moved by a, and P moved by b, where the bits of a are some and not all of those of b.
    pub fn new(low: Point, a: u8, b: u8) -> Option<GridTriangle>
        ensures { TriangleAnswer low a b result }
    {
        let part = b < 8 && a & b == a && a != 0 && a != b;
        part.then_some(GridTriangle { low, a, b })
    }
}
