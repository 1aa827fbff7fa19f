ghost use Rattle.std.specs.Prelude.{◌≡◌, length};
ghost use Rattle.grid.specs.Patterns.{corner_flags};
ghost use Rattle.grid.specs.Shapes.{sides};
ghost use Rattle.surface.specs.Law.{Bounded};
ghost use Rattle.surface.specs.Marches.{Field as Seen, field as seen};

use crate::answers::{along, height, sample_on_top};
use grid::{Cell, GridEdge, Shape};
use mesh::Coordinates;
use volume::{AtLevel, Volume};

// What a march sees of a volume at a level.
pub trait Field {
    // Its sides, the grid points that are inside, and where the vertex on each crossed grid edge lies.
    ghost field: { Self → Seen };

    // Its shape; no point on the border of such a grid or beyond is inside.
    fn shape(&self) -> Shape
        ensures is { sides result ≡ (field self.now).sides }
        ensures bounded { Bounded (field self.now) };

    // Which corners of a cell are inside, by their codes.
    fn corners_inside(&self, cell: Cell) -> [bool; 8]
        ensures value { result ≡ corner_flags (field self.now).inside cell.base }
        ensures eight { length result ≡ 8 };

    // Where the vertex on a grid edge lies.
    fn place(&self, edge: GridEdge) -> Coordinates
        ensures { result ≡ (field self.now).place edge };
}

// The field of a volume at a level: what is inside, and where a crossing lies, by the kind of its samples.
impl<V: Volume> Field for AtLevel<'_, V> {
    ghost field = { λ a. seen V.Kind.SampleKind.inside V.Kind.SampleKind.crossing a.level (sides (V.Volume.shaped a.volume.now)) (V.Volume.sample a.volume.now) };

    #[tactic(auto, using(crate::specs::Bounds::volume_bounded))]
    fn shape(&self) -> Shape {
        self.volume.shape()
    }

    fn corners_inside(&self, cell: Cell) -> [bool; 8] {
        self.volume.corners_inside(&self.level, cell)
    }

    fn place(&self, edge: GridEdge) -> Coordinates {
        let low = self.volume.sample_at(edge.low);
        let high = sample_on_top(self.volume, edge);
        along(edge, height(low, high, &self.level))
    }
}
