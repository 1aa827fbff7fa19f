// Makes castings, lays their skins, inspects them and compares them with the census; then inspects a broken mesh.
#![tactic(auto)]

mod study;

use crate::study::{judge, study};
use grid::{Shape, Triangle};
use volume::{AtLevel, Label, Phantom, TableVolume};

// A ball of radius 7 in a block of 20 samples a side.
fn ball(rt: &HostRuntime) -> anyhow::Result<()> {
    let shape = Shape::new(20, 20, 20)?;
    let phantom = Phantom {
        shape,
        cx: 9,
        cy: 9,
        cz: 9,
    };
    println!(rt; "ball: a phantom of 20 x 20 x 20 samples, centre 9 9 9, at level 65486")?;
    study(rt, &AtLevel::new(&phantom, 65_486))
}

// Whether the sample is one of the part's: a block of 7 x 5 x 5 with a hole through it along y and, beside that, a hollow.
fn is_metal(x: usize, y: usize, z: usize) -> bool {
    let hole = x == 1 && z == 2;
    let hollow = x == 4 && y == 2 && z == 2;
    !hole && !hollow
}

// That block as a table of labels: 1 for metal, and nothing was measured in the hollow.
fn part(rt: &HostRuntime) -> anyhow::Result<()> {
    let shape = Shape::new(7, 5, 5)?;
    let mut entries: Vec<Option<u8>> = Vec::new(rt.alloc());
    for z in 0..5 {
        for y in 0..5 {
            for x in 0..7 {
                entries.push(is_metal(x, y, z).then_some(1))?;
            }
        }
    }
    let volume = TableVolume::<Label> {
        shape,
        entries: &entries,
    };
    println!(rt; "part: a table of 7 x 5 x 5 labels with a hole and a hollow, at level 1")?;
    study(rt, &AtLevel::new(&volume, 1))
}

// A tetrahedron that lacks a side.
fn broken(rt: &HostRuntime) -> anyhow::Result<()> {
    println!(rt; "broken: three of the four triangles of a tetrahedron")?;
    let triangles = [
        Triangle { a: 0, b: 1, c: 2 },
        Triangle { a: 0, b: 2, c: 3 },
        Triangle { a: 0, b: 3, c: 1 },
    ];
    judge(rt, 4, &triangles)?;
    Ok(())
}

fn main(rt: HostRuntime) -> anyhow::Result<()> {
    ball(&rt)?;
    part(&rt)?;
    broken(&rt)
}
