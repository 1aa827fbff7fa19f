ghost use Rattle.std.specs.Prelude.{◌≡◌, ℕ, ◌+◌, ◌<◌, true, map, length, None, slice_index_or};
ghost use Rattle.grid.specs.Points.{sampled};
ghost use Rattle.grid.specs.Shapes.{sides};
ghost use Rattle.volume.specs.Volumes.{table_place, entry_sample, table_sample};
ghost use Rattle.volume.specs.Blocks.{Inner, entry_inside, block};

use crate::insides::{answer_inside, each_corner};
use crate::kinds::SampleKind;
use crate::volumes::Volume;
use grid::{Cell, Point, Shape};

// The samples of a given table: x runs first, then y, then z.
#[derive(Drop)]
pub struct TableVolume<'a, K: SampleKind> {
    pub shape: Shape,
    pub entries: &'a [Option<K::Entry>],
}

// The place of the point's sample in a table.
fn place(shape: Shape, p: Point) -> usize
    requires { sampled (sides shape) p ≡ true }
    ensures { result ≡ table_place (sides shape) p }
{
    let (x, y, z) = (
        usize::from(p.x - 1),
        usize::from(p.y - 1),
        usize::from(p.z - 1),
    );
    x + usize::from(shape.nx) * (y + usize::from(shape.ny) * z)
}

// Whether all corners of the cell at a base have samples.
pub(crate) fn is_inner(shape: Shape, base: Point) -> bool
    ensures { result ≡ true → Inner (sides shape) base }
{
    (1..shape.nx).contains(&base.x)
        && (1..shape.ny).contains(&base.y)
        && (1..shape.nz).contains(&base.z)
}

// The sample that an entry stands for, if it is there and stands for one.
fn sample_of<K: SampleKind>(entry: &Option<K::Entry>) -> Option<K>
    ensures { result ≡ entry_sample K.SampleKind.stored entry.now }
{
    entry.as_ref().and_then(|found| K::load(found))
}

// Which of eight entries are inside: from `at` on two in x, and the same one row and one layer further.
fn block_inside<K: SampleKind>(
    entries: &[Option<K::Entry>],
    at: usize,
    row: usize,
    layer: usize,
    level: &K::Level,
) -> [bool; 8]
    requires { at + layer + row + 1 < length entries.now }
    ensures { result ≡ map (λ n. entry_inside K.SampleKind.stored K.SampleKind.inside level.now (slice_index_or entries.now n None)) (block at row layer) }
{
    let next = at + row;
    let above = at + layer;
    let last = above + row;
    let inside = |i: usize| answer_inside(sample_of::<K>(&entries[i]), level);
    [
        inside(at),
        inside(at + 1),
        inside(next),
        inside(next + 1),
        inside(above),
        inside(above + 1),
        inside(last),
        inside(last + 1),
    ]
}

impl<K: SampleKind> Volume for TableVolume<'_, K> {
    type Kind = K;

    ghost shaped = { λ v. v.shape };

    ghost sample = { λ v p. table_sample K.SampleKind.stored (sides v.shape) v.entries.now p };

    fn shape(&self) -> Shape {
        self.shape
    }

    fn sample_at(&self, p: Point) -> Option<K> {
        if !self.shape.is_sampled(p) {
            return None;
        }
        let i = place(self.shape, p);
        sample_of::<K>(self.entries.get(i)?)
    }

    // A cell within the block of samples has its corners at fixed distances in the table.
    fn corners_inside(&self, level: &K::Level, cell: Cell) -> [bool; 8] {
        if is_inner(self.shape, cell.base) {
            let at = place(self.shape, cell.base);
            let row = usize::from(self.shape.nx);
            let layer = row * usize::from(self.shape.ny);
            if at + layer + row + 1 < self.entries.len() {
                return block_inside::<K>(self.entries, at, row, layer, level);
            }
        }
        each_corner(cell, |p| answer_inside(self.sample_at(p), level))
    }
}
