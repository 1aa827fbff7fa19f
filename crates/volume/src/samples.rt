ghost use Rattle.std.specs.Prelude.{◌^◌, ◌<◌, ◌≤◌};

// A density, 0 to 65,535.
#[derive(Clone, Copy, PartialEq, Eq, Debug)]
pub struct Density {
    pub value: u16,
    ghost fits: { value < 2 ^ 16 },
}

// A label, 0 to 255.
#[derive(Clone, Copy, PartialEq, Eq, Debug)]
pub struct Label {
    pub value: u8,
}

// The two numbers of a ratio as a table stores them: they need not make one.
#[derive(Clone, Copy, PartialEq, Eq, Debug)]
pub struct RatioParts {
    pub n: u16,
    pub d: u16,
}

// The ratio n/d, of parts up to 4,095 with d at least 1: no other ratio exists.
#[derive(Clone, Copy, PartialEq, Eq, Debug)]
pub struct Ratio {
    pub n: u16,
    pub d: u16,
    ghost within: { (n ≤ 4095) × ((1 ≤ d) × (d ≤ 4095)) },
}
