ghost use Rattle.std.specs.Prelude.{◌≡◌, ◌^◌, ◌<◌, ◌≤◌, Bool, true, false, Option};
ghost use Rattle.volume.specs.declared.fractions.Fraction.{Fraction};

use crate::fractions::Fraction;

// A kind of samples. A sample is inside at a level or it is not, and between an inside and an outside sample lies a crossing; both
// depend on nothing else.
pub trait SampleKind: Copy {
    // What a sample is compared with.
    type Level: Copy;
    // A sample as a table stores it.
    type Entry: Copy;

    // Whether the sample is inside at the level.
    ghost inside: { Self → Self.Level → Bool };

    // How far from the inside sample, which comes first, the surface lies on the way to the outside one.
    ghost crossing: { Self → Self → Self.Level → Fraction };

    // The sample that an entry stands for, if it stands for one.
    ghost stored: { Self.Entry → Option Self };

    fn is_inside(&self, level: &Self::Level) -> bool
        ensures { result ≡ inside self.now level.now };

    fn crossing_to(&self, outside: &Self, level: &Self::Level) -> Fraction
        requires here { inside self.now level.now ≡ true }
        requires there { inside outside.now level.now ≡ false }
        ensures { result ≡ crossing self.now outside.now level.now };

    fn load(entry: &Self::Entry) -> Option<Self>
        ensures { result ≡ stored entry.now };

    ghost proper: { (a b : Self) (h : Self.Level) → inside a h ≡ true → inside b h ≡ false → ((crossing a b h).num < (crossing a b h).den) × ((crossing a b h).den ≤ 2 ^ 40) };
}
