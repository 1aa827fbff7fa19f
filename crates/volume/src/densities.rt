ghost use Rattle.volume.specs.Kinds.{density_inside, density_crossing, density_stored};
ghost use Rattle.std.specs.Prelude.{◌≡◌, Some};
ghost use Rattle.std.proofs.Common.{rules};

use crate::fractions::Fraction;
use crate::kinds::SampleKind;
use crate::samples::Density;

// The density of a number.
impl From<u16> for Density {
    ghost from_gives = { λ value d. density_stored value ≡ Some d };

    fn from(value: u16) -> Density {
        Density { value }
    }
}

impl SampleKind for Density {
    type Level = u16;

    type Entry = u16;

    ghost inside = { density_inside };

    ghost crossing = { density_crossing };

    ghost stored = { density_stored };

    ghost proper = { Prim.search rules };

    fn is_inside(&self, level: &u16) -> bool {
        self.value >= *level
    }

    fn crossing_to(&self, outside: &Density, level: &u16) -> Fraction {
        Fraction {
            num: u64::from(self.value - *level),
            den: u64::from(self.value - outside.value),
        }
    }

    fn load(entry: &u16) -> Option<Density> {
        Some(Density::from(*entry))
    }
}
