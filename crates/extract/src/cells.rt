ghost use Rattle.std.specs.Prelude.{◌≡◌, ℕ, length, take, Ok, Err, MatchResult};
ghost use Rattle.grid.specs.Cells.{cell_count};
ghost use Rattle.surface.specs.Marches.{begun};
ghost use Rattle.surface.specs.Views.{state};
ghost use Rattle.extract.specs.Rising.{rising, skin_page};

use grid::{GridEdge, Triangle};
use keymap::Entry;
use mesh::Vertex;
use page::write_page;
use refusal::Refusal;
use surface::{Field, Surface};

// Marches every cell in rising order, until one is refused.
fn march_all<F: Field>(surface: &mut Surface<'_>, field: &F) -> Result<(), Refusal>
    ensures { MatchResult result (λ _. rising (F.Field.field field.now) (state surface.old) (cell_count (F.Field.field field.now).sides) ≡ Ok (state surface.new)) (λ e. rising (F.Field.field field.now) (state surface.old) (cell_count (F.Field.field field.now).sides) ≡ Err e) }
{
    for cell in 0..field.shape().cell_count() {
        surface.march(field, cell)?;
    }
    Ok(())
}

// Extracts the skin of a field: marches every cell in rising order, and writes the page of the mesh at the start of `page`. Answers how
// many bytes it takes.
pub fn extract_page<F: Field>(
    field: &F,
    marks: &mut [bool],
    entries: &mut [Option<Entry<GridEdge>>],
    vertices: &mut [Vertex],
    triangles: &mut [Triangle<u32>],
    page: &mut [u8],
) -> Result<usize, Refusal>
    ensures { MatchResult result (λ n. skin_page (F.Field.field field.now) (begun (F.Field.field field.now).sides (length marks.old) (length entries.old) vertices.old triangles.old) (length page.old) ≡ Ok (take n page.new)) (λ e. skin_page (F.Field.field field.now) (begun (F.Field.field field.now).sides (length marks.old) (length entries.old) vertices.old triangles.old) (length page.old) ≡ Err e) }
{
    let mut surface = Surface::begin(field.shape(), marks, entries, vertices, triangles);
    march_all(&mut surface, field)?;
    write_page(page, surface.vertices(), surface.triangles())
}
