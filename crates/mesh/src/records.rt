ghost use Rattle.std.specs.Prelude.{◌≡◌};
ghost use Rattle.mesh.specs.declared.records.Coordinates.{Coordinates};

use grid::GridEdge;

// A place, in ten-thousandths of the distance between two samples.
#[derive(Clone, Copy, PartialEq, Eq, Debug, Default)]
pub struct Coordinates {
    pub x: u32,
    pub y: u32,
    pub z: u32,
}

// A vertex of a skin: the grid edge that carries it, and where it lies.
#[derive(Clone, Copy, PartialEq, Eq, Debug, Default)]
pub struct Vertex {
    pub edge: GridEdge,
    pub at: Coordinates,
}

// What a mesh can have as a vertex: anything that has a place.
pub trait Located {
    // Where the vertex lies.
    ghost place: { Self → Coordinates };

    fn coordinates(&self) -> Coordinates
        ensures { result ≡ place self.now };
}

impl Located for Coordinates {
    ghost place = { λ c. c };

    fn coordinates(&self) -> Coordinates {
        *self
    }
}

impl Located for Vertex {
    ghost place = { λ v. v.at };

    fn coordinates(&self) -> Coordinates {
        self.at
    }
}
