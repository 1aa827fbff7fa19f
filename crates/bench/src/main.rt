// Lays the skin of a ball in a block of 254 samples a side, the largest there is, once from a phantom and once from a table of its samples.
// With a number as argument, it does so that many times, and prints the least time of each.
#![tactic(auto)]

mod measuring;

use crate::measuring::measure;
use grid::{Point, Shape};
use std::alloc::{AllocError, Global};
use std::env;
use volume::{AtLevel, Density, Phantom, TableVolume, Volume};

// The density at the skin: a ball of radius 120.
const LEVEL: u16 = 51_135;

// The samples of the ball, in table order.
fn samples(heap: Global, ball: &Phantom) -> Result<Vec<Option<u16>>, AllocError> {
    let mut entries = Vec::new(heap);
    for z in 1..255 {
        for y in 1..255 {
            for x in 1..255 {
                let entry = ball.sample_at(Point { x, y, z }).map(|sample| sample.value);
                entries.push(entry)?;
            }
        }
    }
    Ok(entries)
}

// How many rounds the arguments ask for.
fn rounds(rt: &HostRuntime) -> anyhow::Result<u32> {
    match env::args(rt)?.nth(1) {
        Some(word) => Ok(word.parse::<u32>()?),
        None => Ok(1),
    }
}

fn main(rt: HostRuntime) -> anyhow::Result<()> {
    let shape = Shape::new(254, 254, 254)?;
    let ball = Phantom {
        shape,
        cx: 126,
        cy: 126,
        cz: 126,
    };
    let rounds = rounds(&rt)?;
    measure(&rt, "phantom", &AtLevel::new(&ball, LEVEL), rounds)?;
    let entries = samples(rt.alloc(), &ball)?;
    let table = TableVolume::<Density> {
        shape,
        entries: &entries,
    };
    measure(&rt, "table", &AtLevel::new(&table, LEVEL), rounds)
}
