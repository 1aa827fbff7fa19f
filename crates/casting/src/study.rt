use census::{Census, take};
use grid::Triangle;
use keymap::Entry;
use mesh::{DirectedEdge, Verdict, Vertex, VertexRecord, inspect};
use surface::Surface;
use volume::{AtLevel, Volume};

// The sizes of the tables.
const ENTRIES: usize = 16_384;

const VERTICES: usize = 8_192;

const TRIANGLES: usize = 16_384;

const EDGES: usize = 49_152;

// Inspects a mesh and prints the verdict; answers the Euler number of a sound one.
pub fn judge(
    rt: &HostRuntime,
    vertices: u32,
    triangles: &[Triangle<u32>],
) -> anyhow::Result<Option<i64>> {
    let heap = rt.alloc();
    let mut edges: Vec<Option<Entry<DirectedEdge>>> = vec![in heap; None; EDGES]?;
    let mut records = vec![in heap; VertexRecord::default(); VERTICES]?;
    match inspect(vertices, triangles, &mut edges, &mut records) {
        Ok(verdict) => {
            println!(rt; "  inspection: {verdict}")?;
            match verdict {
                Verdict::Sound(counts) => Ok(Some(counts.euler)),
                _ => Ok(None),
            }
        }
        Err(why) => {
            println!(rt; "  {why}")?;
            Ok(None)
        }
    }
}

// Prints a census, and whether twice its Euler number is that of the skin.
fn compare(rt: &HostRuntime, census: Census, euler: Option<i64>) -> anyhow::Result<()> {
    println!(rt; "  census: {census} inside")?;
    if let Some(skin) = euler {
        let twice = census.euler().wrapping_mul(2);
        let word = if skin == twice { "as" } else { "not as" };
        println!(rt; "  twice its Euler number is {twice}, {word} the skin's")?;
    }
    Ok(())
}

// Marches every cell of a volume at a level on a surface, inspects the mesh and takes the census.
fn study_on<V: Volume>(
    rt: &HostRuntime,
    at: &AtLevel<'_, V>,
    surface: &mut Surface<'_>,
) -> anyhow::Result<()> {
    let cells = at.volume.shape().cell_count();
    for cell in 0..cells {
        if let Err(why) = surface.march(at, cell) {
            println!(rt; "  {why}")?;
            return Ok(());
        }
    }
    let counts = surface.counts();
    println!(rt; "  {cells} cells marched: {counts}")?;
    let euler = judge(rt, counts.vertices, surface.triangles())?;
    compare(rt, take(at), euler)
}

// Lays the skin of a volume at a level, inspects it and takes the census.
pub fn study<V: Volume>(rt: &HostRuntime, at: &AtLevel<'_, V>) -> anyhow::Result<()> {
    let heap = rt.alloc();
    let shape = at.volume.shape();
    let mut marks = vec![in heap; false; shape.cell_count() as usize]?;
    let mut entries = vec![in heap; None; ENTRIES]?;
    let mut vertices = vec![in heap; Vertex::default(); VERTICES]?;
    let mut triangles = vec![in heap; Triangle::default(); TRIANGLES]?;
    let mut surface = Surface::begin(
        shape,
        &mut marks,
        &mut entries,
        &mut vertices,
        &mut triangles,
    );
    study_on(rt, at, &mut surface)
}
