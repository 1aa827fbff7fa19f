ghost use Rattle.std.specs.Prelude.{◌≡◌, ℕ, ◌+◌, ◌*◌, ◌<◌, ◌≤◌, Bool, List, [], ◌∷◌, ◌++◌, map, length, take, slice_index_or};
ghost use Rattle.grid.specs.Points.{◌⊕◌, offset, differ};
ghost use Rattle.grid.specs.Cells.{edge, odd as odd-tet, placed};
ghost use Rattle.grid.specs.Cases.{low_position, high_position, rows, turned};
ghost use Rattle.grid.specs.Table.{table_row};
ghost use Rattle.grid.specs.Patterns.{flag_mask, flag_tet, flag_triangles, flag_edges};

use crate::cells::{Cell, Mask, Tetrahedron};
use crate::geometry::TetEdge::{E01, E02, E03, E12, E13, E23};
use crate::geometry::{GridEdge, Point, Span, TetEdge, Triangle};

// A kind of tetrahedron: the corner codes at its positions 0 to 3, and whether it is odd.
#[derive(Clone, Copy)]
struct Kind {
    corners: [u8; 4],
    odd: bool,
}

// The kinds of the six tetrahedra.
const KINDS: &[Kind; 6] = &[
    Kind {
        corners: [0, 1, 3, 7],
        odd: false,
    },
    Kind {
        corners: [0, 1, 5, 7],
        odd: true,
    },
    Kind {
        corners: [0, 2, 3, 7],
        odd: true,
    },
    Kind {
        corners: [0, 2, 6, 7],
        odd: false,
    },
    Kind {
        corners: [0, 4, 5, 7],
        odd: false,
    },
    Kind {
        corners: [0, 4, 6, 7],
        odd: true,
    },
];

// A row of the case table: its triangles, filled up to two. The number of inside corners says how many count.
type Row = [Triangle<TetEdge>; 2];

// A row with no triangle, one or two.
macro_rules! row {
    () => {
        row!(E01 E01 E01, E01 E01 E01)
    };
    ($a:ident $b:ident $c:ident) => {
        row!($a $b $c, E01 E01 E01)
    };
    ($a:ident $b:ident $c:ident, $p:ident $q:ident $r:ident) => {
        [Triangle { a: $a, b: $b, c: $c }, Triangle { a: $p, b: $q, c: $r }]
    };
}

// The case table: the triangles of a tetrahedron for each mask of its inside corners.
const ROWS: &[Row; 16] = &[
    row!(),
    row!(E01 E02 E03),
    row!(E01 E13 E12),
    row!(E02 E03 E13, E02 E13 E12),
    row!(E02 E12 E23),
    row!(E03 E01 E12, E03 E12 E23),
    row!(E01 E23 E02, E01 E13 E23),
    row!(E03 E13 E23),
    row!(E03 E23 E13),
    row!(E01 E02 E23, E01 E23 E13),
    row!(E03 E12 E01, E03 E23 E12),
    row!(E02 E23 E12),
    row!(E02 E13 E03, E02 E12 E13),
    row!(E01 E12 E13),
    row!(E01 E03 E02),
    row!(),
];

impl Mask {
    // How many triangles a tetrahedron has: the count of ones in its mask is the number of its inside corners.
    fn triangle_count(self) -> usize
        ensures value { result ≡ length (slice_index_or rows self.bits []) }
        ensures few { result ≤ 2 }
    {
        match self.bits.count_ones() {
            1 | 3 => 1,
            2 => 2,
            _ => 0,
        }
    }

    // Its row of the case table.
    fn row(self) -> &'static Row
        ensures { result.now ≡ table_row self.bits }
    {
        &ROWS[usize::from(self.bits)]
    }
}

impl TetEdge {
    // The positions of its corners, the lower first.
    fn positions(self) -> (usize, usize)
        ensures low { result.0 ≡ low_position self }
        ensures high { result.1 ≡ high_position self }
        ensures rises { result.0 < result.1 }
        ensures small { result.1 < 4 }
    {
        match self {
            E01 => (0, 1),
            E02 => (0, 2),
            E03 => (0, 3),
            E12 => (1, 2),
            E13 => (1, 3),
            E23 => (2, 3),
        }
    }
}

// The triangles of a cell, by the grid edges that carry their corners: the first `count` of `items`.
#[derive(Clone, Copy)]
pub struct CellTriangles {
    pub items: [Triangle<GridEdge>; 12],
    pub count: usize,
}

impl CellTriangles {
    // Adds one more.
    fn push(&mut self, triangle: Triangle<GridEdge>)
        requires { self.old.count < 12 }
        ensures items { take self.new.count self.new.items ≡ take self.old.count self.old.items ++ triangle ∷ [] }
        ensures one { self.new.count ≡ self.old.count + 1 }
        ensures room { length self.new.items ≡ length self.old.items }
    {
        self.items[self.count] = triangle;
        self.count += 1;
    }
}

impl Tetrahedron {
    // Its mask, where these corners of the cell are inside.
    fn mask(self, inside: &[bool; 8]) -> Mask
        ensures { result.bits ≡ flag_mask inside.now self.number }
    {
        let [a, b, c, d] = KINDS[self.number].corners;
        let a = u8::from(inside[usize::from(a)]);
        let b = u8::from(inside[usize::from(b)]);
        let c = u8::from(inside[usize::from(c)]);
        let d = u8::from(inside[usize::from(d)]);
        Mask {
            bits: a + 2 * b + 4 * c + 8 * d,
        }
    }

    // The grid edge between two of its corners.
    fn edge(self, mn: TetEdge) -> GridEdge
        ensures { result ≡ edge self.cell.base self.number mn }
    {
        let (m, n) = mn.positions();
        let low = KINDS[self.number].corners[m];
        let high = KINDS[self.number].corners[n];
        GridEdge {
            low: self.cell.corner(low),
            direction: high - low,
        }
    }

    // The triangle of a case; in an odd tetrahedron it runs round the other way.
    fn place(self, case: Triangle<TetEdge>) -> Triangle<GridEdge>
        ensures { result ≡ placed self.cell.base self.number (turned (odd-tet self.number) case) }
    {
        let case = if KINDS[self.number].odd {
            case.reversed()
        } else {
            case
        };
        Triangle {
            a: self.edge(case.a),
            b: self.edge(case.b),
            c: self.edge(case.c),
        }
    }

    // Adds its triangles, where these corners of the cell are inside.
    fn add_triangles(self, inside: &[bool; 8], found: &mut CellTriangles)
        requires { found.old.count + 2 ≤ 12 }
        ensures items { take found.new.count found.new.items ≡ take found.old.count found.old.items ++ flag_tet inside.now self.cell.base self.number }
        ensures few { found.new.count ≤ found.old.count + 2 }
        ensures room { length found.new.items ≡ length found.old.items }
    {
        let mask = self.mask(inside);
        for &case in &mask.row()[..mask.triangle_count()] {
            found.push(self.place(case));
        }
    }
}

// The spans from corners, each with its directions.
macro_rules! spans {
    ($($corner:literal: $($direction:literal)*;)*) => {
        [$($(Span { corner: $corner, direction: $direction },)*)*]
    };
}

// The nineteen edges of a cell: from each corner in each direction that stays in the cell.
const SPANS: &[Span; 19] = &spans![
    0: 1 2 3 4 5 6 7;
    1: 2 4 6;
    2: 1 4 5;
    3: 4;
    4: 1 2 3;
    5: 2;
    6: 1;
];

// The crossed edges of a cell: the first `count` of `items`.
#[derive(Clone, Copy)]
pub struct CellEdges {
    pub items: [GridEdge; 19],
    pub count: usize,
}

impl CellEdges {
    // Adds one more.
    fn push(&mut self, edge: GridEdge)
        requires { self.old.count < 19 }
        ensures items { take self.new.count self.new.items ≡ take self.old.count self.old.items ++ edge ∷ [] }
        ensures one { self.new.count ≡ self.old.count + 1 }
        ensures room { length self.new.items ≡ length self.old.items }
    {
        self.items[self.count] = edge;
        self.count += 1;
    }
}

// Whether one end of an edge is inside and the other is not.
fn crosses(low: bool, high: bool) -> bool
    ensures { result ≡ differ low high }
{
    low != high
}

impl Cell {
    // The corner of a code, whose bits 0, 1 and 2 add 1 to x, y and z.
    pub fn corner(self, code: u8) -> Point
        ensures { result ≡ self.base ⊕ offset code }
    {
        Point {
            x: self.base.x + code % 2,
            y: self.base.y + code / 2 % 2,
            z: self.base.z + code / 4 % 2,
        }
    }

    // The triangles of the cell where these of its corners are inside, tetrahedron by tetrahedron.
    pub fn triangles(self, inside: &[bool; 8]) -> CellTriangles
        ensures value { take result.count result.items ≡ flag_triangles inside.now self.base }
        ensures count { result.count ≡ length (flag_triangles inside.now self.base) }
        ensures few { result.count ≤ 12 }
    {
        let mut found = CellTriangles {
            items: [Triangle::default(); 12],
            count: 0,
        };
        for number in 0..6 {
            Tetrahedron { cell: self, number }.add_triangles(inside, &mut found);
        }
        found
    }

    // The edges of the cell that are crossed where these of its corners are inside.
    pub fn crossed_edges(self, inside: &[bool; 8]) -> CellEdges
        ensures value { take result.count result.items ≡ flag_edges inside.now self.base }
        ensures count { result.count ≡ length (flag_edges inside.now self.base) }
        ensures few { result.count ≤ 19 }
    {
        let mut crossed = CellEdges {
            items: [GridEdge::default(); 19],
            count: 0,
        };
        for span in SPANS {
            let low = inside[usize::from(span.corner)];
            let high = inside[usize::from(span.corner + span.direction)];
            if crosses(low, high) {
                crossed.push(GridEdge {
                    low: self.corner(span.corner),
                    direction: span.direction,
                });
            }
        }
        crossed
    }
}
