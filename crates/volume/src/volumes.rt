ghost use Rattle.std.specs.Prelude.{◌≡◌, length, Option};
ghost use Rattle.grid.specs.declared.geometry.Point.{Point};
ghost use Rattle.grid.specs.declared.shapes.Shape.{Shape};
ghost use Rattle.grid.specs.Shapes.{sides};
ghost use Rattle.grid.specs.Patterns.{corner_flags};
ghost use Rattle.volume.specs.Borders.{Bordered};
ghost use Rattle.volume.specs.Insides.{inside_at};

use crate::insides::{answer_inside, each_corner};
use crate::kinds::SampleKind;
use grid::{Cell, Point, Shape};

// A volume answers a sample at each grid point, or none. Its meaning is that assignment, which questions leave unchanged.
pub trait Volume {
    // The kind of its samples.
    type Kind: SampleKind;

    // The shape of the block of its samples.
    ghost shaped: { Self → Shape };

    // The sample at a grid point, if it has one there.
    ghost sample: { Self → Point → Option Self.Kind };

    // Its shape; at the points on the border of such a grid, and beyond, it has no sample.
    fn shape(&self) -> Shape
        ensures is { result ≡ shaped self.now }
        ensures border { Bordered (sides (shaped self.now)) (sample self.now) };

    fn sample_at(&self, p: Point) -> Option<Self::Kind>
        ensures { result ≡ sample self.now p };

    // Which corners of a cell are inside at a level, by their codes. A volume that can tell faster than point by point has a body of its own.
    fn corners_inside(&self, level: &<Self::Kind as SampleKind>::Level, cell: Cell) -> [bool; 8]
        ensures value { result ≡ corner_flags (inside_at Self.Kind.SampleKind.inside level.now (sample self.now)) cell.base }
        ensures eight { length result ≡ 8 }
    {
        each_corner(cell, |p| answer_inside(self.sample_at(p), level))
    }
}
