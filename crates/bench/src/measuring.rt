use grid::{GridEdge, Triangle};
use keymap::Entry;
use mesh::Vertex;
use refusal::Refusal;
use std::time::Instant;
use surface::{Counts, Field, Surface};

// The sizes of the tables.
const ENTRIES: usize = 2_097_152;

const VERTICES: usize = 1_000_000;

const TRIANGLES: usize = 2_000_000;

// Lays the whole skin of a field, cells in rising order, and answers its counts.
fn lay<F: Field>(
    field: &F,
    marks: &mut [bool],
    entries: &mut [Option<Entry<GridEdge>>],
    vertices: &mut [Vertex],
    triangles: &mut [Triangle<u32>],
) -> Result<Counts, Refusal> {
    let mut surface = Surface::begin(field.shape(), marks, entries, vertices, triangles);
    for cell in 0..field.shape().cell_count() {
        surface.march(field, cell)?;
    }
    Ok(surface.counts())
}

// Lays the skin so many times over, and prints its counts and, if it was laid more than once, the least time.
pub fn measure<F: Field>(
    rt: &HostRuntime,
    name: &str,
    field: &F,
    rounds: u32,
) -> anyhow::Result<()> {
    let heap = rt.alloc();
    let mut marks = vec![in heap; false; field.shape().cell_count() as usize]?;
    let mut entries = vec![in heap; None; ENTRIES]?;
    let mut vertices = vec![in heap; Vertex::default(); VERTICES]?;
    let mut triangles = vec![in heap; Triangle::default(); TRIANGLES]?;
    let mut least = u128::MAX;
    for round in 0..rounds {
        let start = Instant::now(rt)?;
        let counts = lay(
            field,
            &mut marks,
            &mut entries,
            &mut vertices,
            &mut triangles,
        )?;
        least = least.min(start.elapsed(rt)?.as_micros());
        if round == 0 {
            println!(rt; "{name}: {counts}")?;
        }
    }
    if rounds > 1 {
        println!(rt; "{name}: {least} microseconds")?;
    }
    Ok(())
}
