ghost use Rattle.volume.specs.Kinds.{label_inside, label_crossing, label_stored};
ghost use Rattle.std.specs.Prelude.{◌≡◌, Some};
ghost use Rattle.std.proofs.Common.{rules};

use crate::fractions::Fraction;
use crate::kinds::SampleKind;
use crate::samples::Label;

// The label of a number.
impl From<u8> for Label {
    ghost from_gives = { λ value l. label_stored value ≡ Some l };

    fn from(value: u8) -> Label {
        Label { value }
    }
}

impl SampleKind for Label {
    type Level = u8;

    type Entry = u8;

    ghost inside = { label_inside };

    ghost crossing = { label_crossing };

    ghost stored = { label_stored };

    ghost proper = { Prim.search rules };

    fn is_inside(&self, level: &u8) -> bool {
        self.value == *level
    }

    fn crossing_to(&self, _outside: &Label, _level: &u8) -> Fraction {
        Fraction { num: 1, den: 2 }
    }

    fn load(entry: &u8) -> Option<Label> {
        Some(Label::from(*entry))
    }
}
