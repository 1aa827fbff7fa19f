ghost use Rattle.std.specs.Prelude.{◌<◌};

use crate::geometry::Point;

// A cell of a grid: eight grid points from its base on.
#[derive(Clone, Copy)]
pub struct Cell {
    pub base: Point,
    ghost room: { (base.x < 255) × (base.y < 255) × (base.z < 255) },
}

// One of the six tetrahedra of a cell, by its number.
#[derive(Clone, Copy)]
pub(crate) struct Tetrahedron {
    pub(crate) cell: Cell,
    pub(crate) number: usize,
    ghost one_of_six: { number < 6 },
}

// Which corners of a tetrahedron are inside: bit m is set where the corner at position m is.
#[derive(Clone, Copy)]
pub(crate) struct Mask {
    pub(crate) bits: u8,
    ghost four: { bits < 16 },
}
