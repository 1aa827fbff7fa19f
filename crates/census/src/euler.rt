ghost use Rattle.std.specs.Prelude.{◌≡◌, ℕ};
ghost use Rattle.census.specs.Counts.{euler_number};

use crate::counts::Census;

impl Census {
    // The Euler number of what is inside: points - edges + triangles - tetrahedra.
    pub fn euler(self) -> i64
        ensures { result ≡ euler_number self }
    {
        self.points as i64 - self.edges as i64 + self.triangles as i64 - self.tetrahedra as i64
    }
}
