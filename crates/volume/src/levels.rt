ghost use Rattle.std.specs.Prelude.{◌≡◌, length};
ghost use Rattle.grid.specs.Patterns.{corner_flags};
ghost use Rattle.volume.specs.Insides.{inside_at, InsidesExact};

use crate::insides::answer_inside;
use crate::kinds::SampleKind;
use crate::volumes::Volume;
use grid::{Cell, Point};

// A volume at a level: of each grid point it tells whether it is inside.
#[derive(Drop)]
pub struct AtLevel<'a, V: Volume> {
    pub volume: &'a V,
    pub level: <V::Kind as SampleKind>::Level,
}

impl<'a, V: Volume> AtLevel<'a, V> {
    // The volume at the level.
    pub fn new(volume: &'a V, level: <V::Kind as SampleKind>::Level) -> AtLevel<'a, V>
        ensures volume { result.volume.now ≡ volume.now }
        ensures level { result.level ≡ level }
    {
        AtLevel { volume, level }
    }

    // Whether a grid point is inside: it has a sample, and that is inside at the level.
    pub fn is_inside(&self, p: Point) -> bool
        ensures value { result ≡ inside_at V.Kind.SampleKind.inside self.now.level (V.Volume.sample self.now.volume.now) p }
        ensures exact { InsidesExact V.Kind.SampleKind.inside self.now.level (V.Volume.sample self.now.volume.now) }
    {
        answer_inside(self.volume.sample_at(p), &self.level)
    }

    // Which corners of a cell are inside, by their codes.
    pub fn corners_inside(&self, cell: Cell) -> [bool; 8]
        ensures value { result ≡ corner_flags (inside_at V.Kind.SampleKind.inside self.now.level (V.Volume.sample self.now.volume.now)) cell.base }
        ensures eight { length result ≡ 8 }
    {
        self.volume.corners_inside(&self.level, cell)
    }
}
