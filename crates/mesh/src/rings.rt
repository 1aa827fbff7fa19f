ghost use Rattle.std.specs.Prelude.{◌≡◌, ◌+◌, ◌^◌, ◌<◌, length, Decides};
ghost use Rattle.mesh.specs.First.{First};
ghost use Rattle.mesh.specs.EdgeTables.{turn, Early};
ghost use Rattle.mesh.specs.VertexNotes.{degree_at, neighbour_at, Tallied, Surveyed};

use crate::edges::third;
use crate::names::NamedMesh;
use crate::sides::DirectedEdge;
use crate::verdicts::VertexRecord;
use keymap::KeyMap;

// A mesh, and what is noted of its vertices, in a record for each.
#[derive(Drop)]
pub(crate) struct Survey<'a> {
    pub mesh: NamedMesh<'a>,
    pub records: &'a mut [VertexRecord],
    ghost size: { length records.now ≡ mesh.vertices },
}

impl<'a> Survey<'a> {
    // Notes of each vertex how many triangles it has, and a vertex that follows it in one of them.
    #[tactic(auto, using(crate::proofs::Tallies::degree_le))]
    pub fn new(mesh: NamedMesh<'a>, records: &'a mut [VertexRecord]) -> Survey<'a>
        requires { length records.old ≡ mesh.vertices }
        ensures mesh { result.mesh ≡ mesh.entry }
        ensures noted { Surveyed mesh.entry.triangles.now (length mesh.entry.triangles.now) result.records.now }
    {
        records.fill(VertexRecord::default());
        for t in mesh.triangles {
            tally(records, t.a, t.b);
            tally(records, t.b, t.c);
            tally(records, t.c, t.a);
        }
        Survey { mesh, records }
    }

    // The first vertex of which no triangle is noted.
    pub fn first_without(&self) -> Option<usize>
        ensures { First (λ v. degree_at self.now.records.now v ≡ 0) self.now.mesh.vertices result }
    {
        self.records.iter().position(|record| record.degree == 0)
    }

    // The first vertex round which turning comes back before its last triangle.
    pub fn first_early(&self, map: &KeyMap<'_, DirectedEdge>) -> Option<usize>
        ensures { First (λ v. Early map.now.entries.now v (neighbour_at self.now.records.now v) (degree_at self.now.records.now v)) self.now.mesh.vertices result }
    {
        (0..self.mesh.vertices).zip(self.records.iter()).position(|(v, record)| {
            comes_back_early(map, v, record.neighbour, record.degree)
        })
    }
}

// Notes a triangle at `v` that runs from there to `neighbour`.
fn tally(records: &mut [VertexRecord], v: u32, neighbour: u32)
    requires within { v < length records.old }
    requires fits { degree_at records.old v + 1 < 2 ^ 64 }
    ensures { Tallied records.old records.new v neighbour }
{
    records[v as usize].neighbour = neighbour;
    records[v as usize].degree += 1;
}

// Whether turning round `v` from its neighbour `start` comes back there in fewer than `degree` turns.
fn comes_back_early(map: &KeyMap<'_, DirectedEdge>, v: u32, start: u32, degree: usize) -> bool
    ensures { Decides result (Early map.now.entries.now v start degree) }
{
    let mut at = start;
    for _ in 1..degree {
        at = third(map, DirectedEdge { from: v, to: at }).unwrap_or(0);
        if at == start {
            return true;
        }
    }
    false
}
