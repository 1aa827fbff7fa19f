ghost use Rattle.std.specs.Prelude.{◌≡◌, ℕ, ◌+◌, ◌-◌, ◌*◌, ◌≤◌, true, min, Some};
ghost use Rattle.grid.specs.Points.{sampled};
ghost use Rattle.grid.specs.Shapes.{sides};
ghost use Rattle.volume.specs.Insides.{answer_inside};
ghost use Rattle.volume.specs.Kinds.{density_inside, density_stored};
ghost use Rattle.volume.specs.Volumes.{square_apart, squared_distance, phantom_sample};

use crate::insides::{answer_inside, each_corner};
use crate::kinds::SampleKind;
use crate::samples::Density;
use crate::tables::is_inner;
use crate::volumes::Volume;
use grid::{Cell, Point, Shape};

// A ball of densities, whose centre is given in sample coordinates: the density falls with the squared distance from it.
#[derive(Clone, Copy)]
pub struct Phantom {
    pub shape: Shape,
    pub cx: u8,
    pub cy: u8,
    pub cz: u8,
}

// The square of the distance from the sample at a coordinate, which is at least 1, to the centre's.
fn square_apart(at: u8, centre: u8) -> u64
    requires { 1 ≤ at }
    ensures { result ≡ square_apart (at - 1) centre }
{
    let apart = u64::from(at - 1).abs_diff(u64::from(centre));
    apart * apart
}

// The density at a squared distance from the centre.
fn density_at(far: u64) -> Density
    ensures { density_stored (65535 - min 65535 far) ≡ Some result }
{
    Density::from((65535 - far.min(65535)) as u16)
}

// Whether the density at a squared distance from the centre is inside.
fn inside_at(far: u64, level: &u16) -> bool
    ensures { result ≡ answer_inside density_inside level.now (density_stored (65535 - min 65535 far)) }
{
    density_at(far).is_inside(level)
}

impl Phantom {
    // The squared distance of the sample at a point from the centre.
    fn squared_distance(&self, p: Point) -> u64
        requires { sampled (sides self.now.shape) p ≡ true }
        ensures { result ≡ squared_distance self.now p }
    {
        square_apart(p.x, self.cx) + square_apart(p.y, self.cy) + square_apart(p.z, self.cz)
    }
}

impl Volume for Phantom {
    type Kind = Density;

    ghost shaped = { λ v. v.shape };

    ghost sample = { phantom_sample };

    fn shape(&self) -> Shape {
        self.shape
    }

    fn sample_at(&self, p: Point) -> Option<Density> {
        if !self.shape.is_sampled(p) {
            return None;
        }
        Some(density_at(self.squared_distance(p)))
    }

    // The corners of a cell within the block share the squares of their distances along each axis.
    fn corners_inside(&self, level: &u16, cell: Cell) -> [bool; 8] {
        let base = cell.base;
        if !is_inner(self.shape, base) {
            return each_corner(cell, |p| answer_inside(self.sample_at(p), level));
        }
        let x = square_apart(base.x, self.cx);
        let y = square_apart(base.y, self.cy);
        let z = square_apart(base.z, self.cz);
        let next_x = square_apart(base.x + 1, self.cx);
        let next_y = square_apart(base.y + 1, self.cy);
        let next_z = square_apart(base.z + 1, self.cz);
        [
            inside_at(x + y + z, level),
            inside_at(next_x + y + z, level),
            inside_at(x + next_y + z, level),
            inside_at(next_x + next_y + z, level),
            inside_at(x + y + next_z, level),
            inside_at(next_x + y + next_z, level),
            inside_at(x + next_y + next_z, level),
            inside_at(next_x + next_y + next_z, level),
        ]
    }
}
