ghost use Rattle.std.specs.Prelude.{◌≡◌, ◌*◌, Some, None, MatchResult};
ghost use Rattle.volume.specs.Kinds.{parts, ratio_refusal, ratio_inside, ratio_crossing, ratio_stored};
ghost use Rattle.volume.specs.Crossings.{ratio_proper};

use crate::fractions::Fraction;
use crate::kinds::SampleKind;
use crate::samples::{Ratio, RatioParts};
use refusal::{Part, Refusal};

impl Ratio {
    // The ratio n/d, or which part cannot be one's.
    pub fn new(n: u16, d: u16) -> Result<Ratio, Refusal>
        ensures { MatchResult result (λ v. (ratio_refusal (parts n d) ≡ None) × ((v.n ≡ n) × (v.d ≡ d)) × (ratio_stored (parts n d) ≡ Some v)) (λ e. ratio_refusal (parts n d) ≡ Some e) }
    {
        if n > 4095 {
            return Err(Refusal::RatioPart(Part::Numerator));
        }
        if d == 0 || d > 4095 {
            return Err(Refusal::RatioPart(Part::Denominator));
        }
        Ok(Ratio { n, d })
    }

    // This ratio's upper part times the other's lower part: of two ratios, the larger has the larger one.
    fn cross(&self, other: &Ratio) -> u64
        ensures { result ≡ self.now.n * other.now.d }
    {
        u64::from(self.n) * u64::from(other.d)
    }
}

impl SampleKind for Ratio {
    type Level = Ratio;

    type Entry = RatioParts;

    ghost inside = { ratio_inside };

    ghost crossing = { ratio_crossing };

    ghost stored = { ratio_stored };

    ghost proper = { λ a b h here there. ratio_proper a b h there };

    fn is_inside(&self, level: &Ratio) -> bool {
        self.cross(level) >= level.cross(self)
    }

    fn crossing_to(&self, outside: &Ratio, level: &Ratio) -> Fraction {
        let over = self.cross(level) - level.cross(self);
        let under = level.cross(outside) - outside.cross(level);
        let num = over * u64::from(outside.d);
        Fraction {
            num,
            den: num + under * u64::from(self.d),
        }
    }

    fn load(entry: &RatioParts) -> Option<Ratio> {
        Ratio::new(entry.n, entry.d).ok()
    }
}
