ghost use Rattle.std.specs.Prelude.{◌≡◌, ℕ, ◌+◌, ◌*◌, ◌<◌, ◌≤◌, Bool, true, false, cond, Some, None, MatchOption, MatchResult};
ghost use Rattle.grid.specs.Points.{sampled, on_border};
ghost use Rattle.grid.specs.Cells.{cell_count, cell_number, cell_base};
ghost use Rattle.grid.specs.Shapes.{sides, triple, sides_refusal, shapes_refusal, lawful, CellAt};

use crate::cells::Cell;
use crate::geometry::Point;
use crate::shapes::Shape;
use refusal::{Axis, Refusal};

// The side of a length, which a shape has where it is 1 to 254.
fn side(n: u64) -> Option<u8>
    ensures { MatchOption result (lawful n ≡ false) (λ side. (lawful n ≡ true) × (side ≡ n)) }
{
    u8::try_from(n).ok().filter(|side| (1..=254).contains(side))
}

impl Shape {
    // The shape of three sides, which may be numbers of any size.
    pub fn new(nx: u64, ny: u64, nz: u64) -> Result<Shape, Refusal>
        ensures { MatchResult result (λ s. (sides_refusal (triple nx ny nz) ≡ None) × (sides s ≡ triple nx ny nz)) (λ e. sides_refusal (triple nx ny nz) ≡ Some e) }
    {
        Ok(Shape {
            nx: side(nx).ok_or(Refusal::Side(Axis::X))?,
            ny: side(ny).ok_or(Refusal::Side(Axis::Y))?,
            nz: side(nz).ok_or(Refusal::Side(Axis::Z))?,
        })
    }

    // Whether a point has a sample: it is neither on the border nor beyond.
    pub fn is_sampled(self, p: Point) -> bool
        ensures { result ≡ sampled (sides self) p }
    {
        (1..=self.nx).contains(&p.x) && (1..=self.ny).contains(&p.y) && (1..=self.nz).contains(&p.z)
    }

    // How many cells the grid has.
    pub fn cell_count(self) -> u32
        ensures { result ≡ cell_count (sides self) }
    {
        (u32::from(self.nx) + 1) * ((u32::from(self.ny) + 1) * (u32::from(self.nz) + 1))
    }

    // The cell of a number, where there is one.
    pub fn cell(self, number: u32) -> Option<Cell>
        ensures { CellAt (sides self) number result }
    {
        if number >= self.cell_count() {
            return None;
        }
        let row = u32::from(self.nx) + 1;
        let column = u32::from(self.ny) + 1;
        let x = number % row;
        let y = number / row % column;
        let z = number / row / column;
        Some(Cell {
            base: Point {
                x: x as u8,
                y: y as u8,
                z: z as u8,
            },
        })
    }

    // Whether another shape is the same, or the lowest axis on which they differ.
    pub fn check_same(self, other: Shape) -> Result<(), Refusal>
        ensures { MatchResult result (λ _. shapes_refusal (sides self) (sides other) ≡ None) (λ e. shapes_refusal (sides self) (sides other) ≡ Some e) }
    {
        if self.nx != other.nx {
            return Err(Refusal::OtherShape(Axis::X));
        }
        if self.ny != other.ny {
            return Err(Refusal::OtherShape(Axis::Y));
        }
        if self.nz != other.nz {
            return Err(Refusal::OtherShape(Axis::Z));
        }
        Ok(())
    }
}
