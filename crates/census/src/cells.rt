ghost use Rattle.std.specs.Prelude.{◌≡◌, ℕ, ◌≤◌, Bool, length, count_by};
ghost use Rattle.census.specs.Counts.{FlagsStarting};

use crate::counts::Census;

// How many of the tests are met.
fn count(tests: &[bool]) -> u64
    ensures value { result ≡ count_by (λ b. b) tests.now }
    ensures few { result ≤ length tests.now }
{
    let mut met = 0;
    for test in tests {
        met += u64::from(*test);
    }
    met
}

// What starts at the base of a cell and has all corners inside, by the flags of the cell's corners.
pub(crate) fn starting_by(flags: &[bool; 8]) -> Census
    ensures { FlagsStarting flags.now result }
{
    let [true, x, y, xy, z, xz, yz, xyz] = *flags else {
        return Census::default();
    };
    Census {
        points: 1,
        edges: count(&[x, y, xy, z, xz, yz, xyz]),
        triangles: count(&[
            x & xy,
            x & xz,
            x & xyz,
            y & xy,
            y & yz,
            y & xyz,
            xy & xyz,
            z & xz,
            z & yz,
            z & xyz,
            xz & xyz,
            yz & xyz,
        ]),
        tetrahedra: count(&[
            x & xy & xyz,
            x & xz & xyz,
            y & xy & xyz,
            y & yz & xyz,
            z & xz & xyz,
            z & yz & xyz,
        ]),
    }
}
