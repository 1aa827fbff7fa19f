ghost use Rattle.std.specs.Prelude.{◌≡◌, ℕ, ◌<◌, Bool, true, false, length, replicate, Some, None, MatchResult};
ghost use Rattle.grid.specs.Shapes.{sides, shapes_refusal};
ghost use Rattle.surface.specs.Marches.{begun, cell_refusal, March};
ghost use Rattle.surface.specs.Views.{state, Marchable};
ghost use Rattle.surface.specs.Law.{BeginsSkin, KeepsSkin};

use crate::fields::Field;
use crate::needs::is_uniform;
use crate::sizes::Counts;
use crate::surfaces::Surface;
use crate::tables::Tables;
use grid::{Cell, GridEdge, Shape, Triangle};
use keymap::Entry;
use mesh::Vertex;
use refusal::Refusal;

impl<'a> Surface<'a> {
    // A surface of a shape, with no cell marched yet. Every run begins here.
    pub fn begin(
        shape: Shape,
        marks: &'a mut [bool],
        entries: &'a mut [Option<Entry<GridEdge>>],
        vertices: &'a mut [Vertex],
        triangles: &'a mut [Triangle<u32>],
    ) -> Surface<'a>
        ensures is { state result ≡ begun (sides shape) (length marks.old) (length entries.old) vertices.old triangles.old }
        ensures skin { BeginsSkin (sides shape) (state result) }
    {
        marks.fill(false);
        Surface {
            shape,
            marks,
            tables: Tables::over(entries, vertices, triangles),
        }
    }

    // The cell of a number, if it can be marched: it is one of the grid's, has a mark, and is not marched yet.
    fn cell_to_march(&self, cell: u32) -> Result<Cell, Refusal>
        ensures { MatchResult result (λ c. Marchable (state self.now) cell c) (λ e. cell_refusal (state self.now) cell ≡ Some e) }
    {
        let found = self.shape.cell(cell).ok_or(Refusal::Outside(cell))?;
        let index = cell as usize;
        if index >= self.marks.len() {
            return Err(Refusal::NoMark(cell));
        }
        if self.marks[index] {
            return Err(Refusal::Marched(cell));
        }
        Ok(found)
    }

    // Marches a cell that no rule about shapes, cells and marks forbids to march.
    fn march_at<F: Field>(&mut self, field: &F, cell: u32, at: Cell) -> Result<Counts, Refusal>
        requires shape { shapes_refusal (sides self.old.shape) (F.Field.field field.now).sides ≡ None }
        requires allowed { Marchable (state self.old) cell at }
        ensures { March (F.Field.field field.now) (state self.old) cell result (state self.new) }
    {
        let inside = field.corners_inside(at);
        if is_uniform(&inside) {
            self.marks[cell as usize] = true;
            return Ok(Counts::default());
        }
        let edges = at.crossed_edges(&inside);
        let list = at.triangles(&inside);
        let triangles = &list.items[..list.count];
        let need = self.tables.need(&edges.items[..edges.count], triangles);
        self.tables.check_room(need, cell)?;
        self.tables.add_all(field, triangles);
        self.marks[cell as usize] = true;
        Ok(need)
    }

    // Marches a cell: adds its triangles, with a vertex on each of its crossed edges, or refuses and changes nothing. After every run of
    // calls on one field, such as a volume at a level, refused calls and those of other shapes too, the surface keeps the skin law.
    pub fn march<F: Field>(&mut self, field: &F, cell: u32) -> Result<Counts, Refusal>
        ensures is { March (F.Field.field field.now) (state self.old) cell result (state self.new) }
        ensures skin { KeepsSkin (F.Field.field field.now) (state self.old) (state self.new) }
    {
        self.shape.check_same(field.shape())?;
        let at = self.cell_to_march(cell)?;
        self.march_at(field, cell, at)
    }
}
