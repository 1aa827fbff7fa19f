ghost use Rattle.std.specs.Prelude.{◌≤◌};

// The sides of a block of samples, each from 1 to 254: no other shape exists.
#[derive(Clone, Copy, PartialEq, Eq, Debug)]
pub struct Shape {
    pub nx: u8,
    pub ny: u8,
    pub nz: u8,
    ghost within: { ((1 ≤ nx) × (nx ≤ 254)) × ((1 ≤ ny) × (ny ≤ 254)) × ((1 ≤ nz) × (nz ≤ 254)) },
}
