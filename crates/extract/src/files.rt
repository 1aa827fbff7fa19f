ghost use Rattle.std.specs.Prelude.{◌≡◌, IfOk};
ghost use Rattle.grid.specs.Shapes.{sides};
ghost use Rattle.volume.specs.Volumes.{table_sample};
ghost use Rattle.surface.specs.Marches.{field};
ghost use Rattle.extract.specs.Answers.{Answers};
ghost use Rattle.extract.specs.Output.{field_page, file_page, output};

use crate::cells::extract_page;
use crate::failures::Failure;
use grid::{Shape, Triangle};
use mesh::Vertex;
use refusal::Refusal;
use std::alloc::{AllocError, Global};
use surface::Field;
use volume::{AtLevel, Density, FileHeader, Label, SampleKind, TableVolume, read_file};

// The longest volume file that is read, and the sizes of the tables.
const LONGEST: usize = 4096;

const SAMPLES: usize = 1024;

const CELLS: usize = 2048;

const ENTRIES: usize = 4096;

const VERTICES: usize = 2048;

const TRIANGLES: usize = 4096;

const PAGE: usize = 65_536;

// The page of the skin of a field, over tables of the stated sizes.
fn page_of_field<F: Field>(heap: Global, field: &F) -> Result<Vec<u8>, Failure>
    ensures { Answers (field_page (F.Field.field field.now)) result }
{
    let mut marks = vec![in heap; false; CELLS]?;
    let mut entries = vec![in heap; None; ENTRIES]?;
    let mut vertices = vec![in heap; Vertex::default(); VERTICES]?;
    let mut triangles = vec![in heap; Triangle::default(); TRIANGLES]?;
    let mut page = vec![in heap; 0; PAGE]?;
    let length = extract_page(
        field,
        &mut marks,
        &mut entries,
        &mut vertices,
        &mut triangles,
        &mut page,
    )?;
    page.truncate(length);
    Ok(page)
}

// The page of the skin of a table of samples at a level.
fn page_of_table<K: SampleKind>(
    heap: Global,
    shape: Shape,
    entries: &[Option<K::Entry>],
    level: K::Level,
) -> Result<Vec<u8>, Failure>
    ensures { Answers (field_page (field K.SampleKind.inside K.SampleKind.crossing level (sides shape) (table_sample K.SampleKind.stored (sides shape) entries.now))) result }
{
    let volume = TableVolume::<K> { shape, entries };
    page_of_field(heap, &AtLevel::new(&volume, level))
}

// The page of the skin of a volume file.
fn page_of_file(heap: Global, input: &[u8]) -> Result<Vec<u8>, Failure>
    ensures { Answers (file_page input.now) result }
{
    if input.len() > LONGEST {
        return Err(Failure::Refused(Refusal::TableRoom(LONGEST as u64)));
    }
    let mut densities = vec![in heap; None; SAMPLES]?;
    let mut labels = vec![in heap; None; SAMPLES]?;
    match read_file(input, &mut densities, &mut labels)? {
        FileHeader::Densities { shape, level } => {
            page_of_table::<Density>(heap, shape, &densities, level)
        }
        FileHeader::Labels { shape, level } => page_of_table::<Label>(heap, shape, &labels, level),
    }
}

// What `skin` writes for the bytes of a volume file: the page of its skin, or the line that reports the refusal.
pub fn skin(heap: Global, input: &[u8]) -> Result<Vec<u8>, AllocError>
    ensures { IfOk result (λ v. v.items ≡ output input.now) }
{
    match page_of_file(heap, input) {
        Ok(page) => Ok(page),
        Err(Failure::Refused(why)) => Ok(format!(in heap; "{why}\n")?.into_bytes()),
        Err(Failure::Memory(why)) => Err(why),
    }
}
