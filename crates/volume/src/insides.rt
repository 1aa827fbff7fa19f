ghost use Rattle.std.specs.Prelude.{◌≡◌, Bool};
ghost use Rattle.grid.specs.declared.geometry.Point.{Point};
ghost use Rattle.grid.specs.Patterns.{corner_flags};
ghost use Rattle.volume.specs.Insides.{answer_inside};

use crate::kinds::SampleKind;
use grid::{Cell, Point};

// Whether an answer is inside: a sample is, or is not, and no sample is outside.
pub fn answer_inside<K: SampleKind>(answer: Option<K>, level: &K::Level) -> bool
    ensures { result ≡ answer_inside K.SampleKind.inside level.now answer }
{
    answer.is_some_and(|sample| sample.is_inside(level))
}

// What a question answers at the corners of a cell, by their codes.
pub(crate) fn each_corner<F: Fn(Point) -> bool>(cell: Cell, asked: F) -> [bool; 8]
    requires { F.IsAlwaysCallable asked }
    ensures { (inside : Point → Bool) → ((p : Point) (b : Bool) → F.post asked p b → b ≡ inside p) → result ≡ corner_flags inside cell.base }
{
    [
        asked(cell.corner(0)),
        asked(cell.corner(1)),
        asked(cell.corner(2)),
        asked(cell.corner(3)),
        asked(cell.corner(4)),
        asked(cell.corner(5)),
        asked(cell.corner(6)),
        asked(cell.corner(7)),
    ]
}
