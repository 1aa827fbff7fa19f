ghost use Rattle.std.specs.Prelude.{ℕ, Bool};
ghost use Rattle.grid.specs.Shapes.{sides};
ghost use Rattle.volume.specs.Insides.{inside_at};
ghost use Rattle.census.specs.Counts.{Taken, Starting};

use crate::cells::starting_by;
use crate::counts::Census;
use grid::Cell;
use volume::{AtLevel, Volume};

// What starts at the base of a cell and has all corners inside: nothing where the base itself is outside. The test of the base
// alone spares most cells the other seven corners; where the base is inside, it is asked of again as the first of the eight.
fn starting_at<V: Volume>(at: &AtLevel<'_, V>, cell: Cell) -> Census
    ensures { Starting (inside_at V.Kind.SampleKind.inside at.now.level (V.Volume.sample at.now.volume.now)) cell.base result }
{
    if !at.is_inside(cell.base) {
        return Census::default();
    }
    starting_by(&at.corners_inside(cell))
}

// The census of a volume at a level. Each point, edge, triangle and tetrahedron is counted at its lowest corner, the base of a cell.
pub fn take<V: Volume>(at: &AtLevel<'_, V>) -> Census
    ensures { Taken (sides (V.Volume.shaped at.now.volume.now)) (inside_at V.Kind.SampleKind.inside at.now.level (V.Volume.sample at.now.volume.now)) result }
{
    let shape = at.volume.shape();
    let mut total = Census::default();
    for number in 0..shape.cell_count() {
        if let Some(cell) = shape.cell(number) {
            total += starting_at(at, cell);
        }
    }
    total
}
