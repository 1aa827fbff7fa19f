use grid::{Shape, Triangle};
use keymap::Entry;
use mesh::{DirectedEdge, Verdict, Vertex, VertexRecord, inspect};
use refusal::Refusal;
use std::alloc::{AllocError, Global};
use std::test::Fail;
use surface::{Counts, Surface};
use volume::{AtLevel, Label, TableVolume};

// The lengths of the four tables of a surface.
#[derive(Clone, Copy)]
pub struct Sizes {
    pub marks: usize,
    pub entries: usize,
    pub vertices: usize,
    pub triangles: usize,
}

// The answer of the last of some marches on a surface of one sample, over tables of these sizes: the sample is inside.
pub fn last_march(
    heap: Global,
    sizes: Sizes,
    shape: Shape,
    of: Shape,
    cells: &[u32],
) -> Result<Result<Counts, Refusal>, AllocError> {
    let mut marks = vec![in heap; false; sizes.marks]?;
    let mut entries = vec![in heap; None; sizes.entries]?;
    let mut vertices = vec![in heap; Vertex::default(); sizes.vertices]?;
    let mut triangles = vec![in heap; Triangle::default(); sizes.triangles]?;
    let samples = vec![in heap; Some(5u8); 8]?;
    let volume = TableVolume::<Label> {
        shape: of,
        entries: &samples,
    };
    let mut surface = Surface::begin(
        shape,
        &mut marks,
        &mut entries,
        &mut vertices,
        &mut triangles,
    );
    let field = AtLevel::new(&volume, 5);
    let mut answer = Ok(Counts::default());
    for cell in cells {
        answer = surface.march(&field, *cell);
    }
    Ok(answer)
}

// The verdict on the skin of a block of labels at level 1, all cells marched in falling order.
pub fn verdict(heap: Global, shape: Shape, samples: &[Option<u8>]) -> Result<Verdict, Fail> {
    let cells = shape.cell_count();
    let mut marks = vec![in heap; false; cells as usize]?;
    let mut entries = vec![in heap; None; 1024]?;
    let mut vertices = vec![in heap; Vertex::default(); 512]?;
    let mut triangles = vec![in heap; Triangle::default(); 1024]?;
    let volume = TableVolume::<Label> {
        shape,
        entries: samples,
    };
    let mut surface = Surface::begin(
        shape,
        &mut marks,
        &mut entries,
        &mut vertices,
        &mut triangles,
    );
    let field = AtLevel::new(&volume, 1);
    for cell in (0..cells).rev() {
        surface.march(&field, cell)?;
    }
    let mut edges: Vec<Option<Entry<DirectedEdge>>> = vec![in heap; None; 3072]?;
    let mut records = vec![in heap; VertexRecord::default(); 512]?;
    let count = surface.counts().vertices;
    Ok(inspect(count, surface.triangles(), &mut edges, &mut records)?)
}
