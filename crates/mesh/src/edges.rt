ghost use Rattle.std.specs.Prelude.{◌≡◌, ◌*◌, ◌<◌, ◌≤◌, length, IfNone};
ghost use Rattle.keymap.specs.Probe.{Sound};
ghost use Rattle.keymap.specs.Frees.{free};
ghost use Rattle.mesh.specs.Sides.{edge_ends, edge_hash};
ghost use Rattle.mesh.specs.First.{First};
ghost use Rattle.mesh.specs.Faults.{Doubled, Unpaired};
ghost use Rattle.mesh.specs.EdgeTables.{found, seen as seen_in, missed as missed_in, Noted, Noting};

use crate::names::NamedMesh;
use crate::sides::{DirectedEdge, directed_edges};
use grid::Triangle;
use keymap::KeyMap;

// The vertex that is held for a directed edge: the one that follows it in its triangle.
#[tactic(auto, unfolding(crate::specs::EdgeTables::found))]
pub(crate) fn third(map: &KeyMap<'_, DirectedEdge>, edge: DirectedEdge) -> Option<u32>
    ensures { result ≡ found map.now.entries.now edge.from edge.to }
{
    map.get(&edge)
}

// Has `map` hold the vertex `third` for `edge`.
fn note(map: &mut KeyMap<'_, DirectedEdge>, edge: DirectedEdge, third: u32)
    requires sound { Sound edge_ends edge_hash map.old.entries.now }
    requires room { 0 < free map.old.entries.now }
    ensures { Noting map.old.entries.now map.new.entries.now edge third }
{
    map.insert(edge, third).unwrap();
}

// Whether one of the directed edges of `t` is held.
fn seen(map: &KeyMap<'_, DirectedEdge>, t: Triangle<u32>) -> bool
    ensures { result ≡ seen_in map.now.entries.now t }
{
    directed_edges(t)
        .iter()
        .any(|edge| third(map, *edge).is_some())
}

// The first triangle with a directed edge of an earlier one. If there is none, the map then holds every directed edge.
pub(crate) fn first_doubled(
    mesh: NamedMesh<'_>,
    map: &mut KeyMap<'_, DirectedEdge>,
) -> Option<usize>
    requires { 3 * length mesh.triangles.now ≤ length map.old.entries.now }
    ensures first { First (Doubled mesh.entry.triangles.now) (length mesh.entry.triangles.now) result }
    ensures noted { IfNone result (Noted mesh.entry.triangles.now (length mesh.entry.triangles.now) map.new.entries.now) }
{
    map.clear();
    for (k, t) in mesh.triangles.iter().enumerate() {
        if seen(map, *t) {
            return Some(k);
        }
        let [ab, bc, ca] = directed_edges(*t);
        note(map, ab, t.c);
        note(map, bc, t.a);
        note(map, ca, t.b);
    }
    None
}

// Whether the reverse of one of the directed edges of `t` is not held.
fn missed(map: &KeyMap<'_, DirectedEdge>, t: Triangle<u32>) -> bool
    ensures { result ≡ missed_in map.now.entries.now t }
{
    directed_edges(t)
        .iter()
        .any(|edge| third(map, edge.reversed()).is_none())
}

// The first triangle with a directed edge that has no reverse.
pub(crate) fn first_unpaired(mesh: NamedMesh<'_>, map: &KeyMap<'_, DirectedEdge>) -> Option<usize>
    requires { Noted mesh.triangles.now (length mesh.triangles.now) map.now.entries.now }
    ensures { First (Unpaired mesh.entry.triangles.now) (length mesh.entry.triangles.now) result }
{
    mesh.triangles.iter().position(|t| missed(map, *t))
}
