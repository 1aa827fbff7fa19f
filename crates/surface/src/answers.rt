ghost use Rattle.std.specs.Prelude.{◌≡◌, ℕ, ◌+◌, ◌-◌, ◌*◌, ◌/◌, ◌%◌, ◌^◌, ◌<◌, ◌≤◌, Bool, true, false};
ghost use Rattle.grid.specs.Points.{top};
ghost use Rattle.surface.specs.Answers.{half, rounded as rounded-to, along as place-along, fraction as fraction-of, from_low};

use grid::GridEdge;
use mesh::Coordinates;
use volume::{Fraction, SampleKind, Volume, answer_inside};

// How far from the inside answer the crossing lies.
fn fraction<K: SampleKind>(inside: Option<K>, outside: Option<K>, level: &K::Level) -> Fraction
    ensures value { result ≡ fraction-of K.SampleKind.inside K.SampleKind.crossing level.now inside outside }
    ensures proper { result.num < result.den }
    ensures small { result.den ≤ 2 ^ 40 }
{
    match (inside, outside) {
        (Some(a), Some(b)) if a.is_inside(level) && !b.is_inside(level) => a.crossing_to(&b, level),
        _ => Fraction { num: 1, den: 2 },
    }
}

// A fraction in ten-thousandths, rounded.
fn rounded(m: u64, den: u64) -> u32
    requires some { 0 < den }
    requires part { m ≤ den }
    requires small { den ≤ 2 ^ 40 }
    ensures value { result ≡ rounded-to m den }
    ensures few { result ≤ 10000 }
{
    ((20_000 * m + den) / (2 * den)) as u32
}

// How far up a grid edge the crossing lies, by the answers at its ends.
pub(crate) fn height<K: SampleKind>(low: Option<K>, high: Option<K>, level: &K::Level) -> u32
    ensures value { result ≡ from_low K.SampleKind.inside K.SampleKind.crossing level.now low high }
    ensures few { result ≤ 10000 }
{
    if answer_inside(low, level) {
        let f = fraction(low, high, level);
        rounded(f.num, f.den)
    } else {
        let f = fraction(high, low, level);
        rounded(f.den - f.num, f.den)
    }
}

// The place r ten-thousandths up a grid edge.
pub(crate) fn along(edge: GridEdge, r: u32) -> Coordinates
    requires { r ≤ 10000 }
    ensures { result ≡ place-along edge r }
{
    Coordinates {
        x: 10_000 * edge.low.x as u32 + r * (edge.direction % 2) as u32,
        y: 10_000 * edge.low.y as u32 + r * (edge.direction / 2 % 2) as u32,
        z: 10_000 * edge.low.z as u32 + r * (edge.direction / 4 % 2) as u32,
    }
}

// The answer at the upper end of a grid edge.
pub(crate) fn sample_on_top<V: Volume>(volume: &V, edge: GridEdge) -> Option<V::Kind>
    ensures { result ≡ V.Volume.sample volume.now (top edge) }
{
    match edge.top() {
        Some(p) => volume.sample_at(p),
        None => {
            // Such an end is beyond the grid, where no volume has a sample: its shape says so.
            let _shape = volume.shape();
            None
        }
    }
}
