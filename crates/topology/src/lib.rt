#![tactic(auto)]

ghost use Rattle.topology.specs.Crossings.{TetCrossings, CellCrossings, CornersDiffer, EdgesDiffer, OneLess, OnesCount, TetCount, TriangleCount};
ghost use Rattle.topology.specs.Sides.{Unique, Closed, Kept, PaddedGrounded};
ghost use Rattle.topology.specs.Rings.{Ringed};
ghost use Rattle.topology.specs.Census.{TrianglesListed, Euler, CellSums, CrossedInGrid, VerticesCounted, CellsCounted};
ghost use Rattle.topology.specs.Outward.{Outward, Complement, Parity};

// Why a skin closes: laws of any set of inside points, each the contract of a function.

// A cell's triangles name exactly its crossed edges, each triangle three different ones; a cell's edges are all different; a cell has
// 0, 1, 2, 1 or 0 triangles for each tetrahedron, by its inside corners.
pub fn crossings_exact() -> u8
    ensures tetrahedron { TetCrossings }
    ensures cell { CellCrossings }
    ensures corners { CornersDiffer }
    ensures edges { EdgesDiffer }
    ensures less { OneLess }
    ensures ones { OnesCount }
    ensures count { TetCount }
    ensures triangles { TriangleCount }
{
    0
}

// Along each directed edge of a triangle no other triangle runs, and exactly one runs the other way: in the same cell or, exactly where
// the mesh edge lies on a wall, in the cell across it. Where no border point is inside, all these cells are cells of the grid.
pub fn edges_paired() -> u8
    ensures unique { Unique }
    ensures closed { Closed }
    ensures grounded { PaddedGrounded }
    ensures kept { Kept }
{
    0
}

// Round every crossed grid edge the triangles of all cells form one ring.
pub fn rings_close() -> u8
    ensures { Ringed }
{
    0
}

// Over the whole grid, with no border point inside, the numbers of crossed edges and of triangles follow from the census.
pub fn census_balances() -> u8
    ensures listed { TrianglesListed }
    ensures euler { Euler }
    ensures sums { CellSums }
    ensures within { CrossedInGrid }
    ensures vertices { VerticesCounted }
    ensures cells { CellsCounted }
{
    0
}

// Every triangle faces from the inside corners of its tetrahedron to the outside ones; the row of the complement of a mask, and that of an
// odd tetrahedron, has the same triangles running round the other way.
pub fn table_faces_outward() -> u8
    ensures outward { Outward }
    ensures complement { Complement }
    ensures parity { Parity }
{
    0
}
