ghost use Rattle.std.specs.Prelude.{◌≡◌, ℕ, ◌*◌, ◌/◌, ◌^◌, ◌<◌, ◌≤◌, length, pos, ◌+ℤ◌, ◌-ℤ◌, IfOk, Some, None, MatchResult, OnErr};
ghost use Rattle.refusal.specs.Refusals.{code};
ghost use Rattle.mesh.specs.Surfaces.{Surface};
ghost use Rattle.mesh.specs.MeshEdges.{OneEdgeCount};
ghost use Rattle.mesh.specs.Parts.{Groups, OnePartCount};
ghost use Rattle.mesh.specs.Verdicts.{report, room_refusal, Counted, Judged, Inspected, SoundForSurfaces};

use crate::edges::{first_doubled, first_unpaired};
use crate::names::{NamedMesh, first_misnamed};
use crate::parts::part_count;
use crate::rings::Survey;
use crate::sides::DirectedEdge;
use crate::verdicts::{Counts, Verdict, VertexRecord};
use grid::Triangle;
use keymap::{Entry, KeyMap};
use refusal::Refusal;

// Whether the working tables are long enough.
fn check_room(
    vertices: u32,
    triangles: usize,
    entries: usize,
    records: usize,
) -> Result<(), Refusal>
    ensures { MatchResult result (λ _. room_refusal vertices triangles entries records ≡ None) (λ e. room_refusal vertices triangles entries records ≡ Some (code e)) }
{
    if entries / 3 < triangles {
        return Err(Refusal::WorkRoom((triangles as u64).saturating_mul(3)));
    }
    if records < vertices as usize {
        return Err(Refusal::WorkRoom(u64::from(vertices)));
    }
    Ok(())
}

// How many mesh edges a closed oriented surface has: each belongs to two of its triangles, of three sides each.
fn edge_count(triangles: usize) -> usize
    requires { 3 * triangles < 2 ^ 64 }
    ensures { result ≡ 3 * triangles / 2 }
{
    3 * triangles / 2
}

// The Euler number.
fn euler_number(vertices: u32, edges: usize, triangles: usize) -> i64
    requires edges { edges < 2 ^ 63 }
    requires triangles { triangles ≤ edges }
    ensures { result ≡ (pos vertices -ℤ pos edges) +ℤ pos triangles }
{
    i64::from(vertices) - edges as i64 + triangles as i64
}

// The counts of a mesh that is a closed oriented surface of so many parts.
fn surface_counts(mesh: NamedMesh<'_>, parts: u32) -> Counts
    requires fits { 3 * length mesh.triangles.now < 2 ^ 64 }
    requires surface { Surface mesh.vertices mesh.triangles.now }
    requires parts { Groups mesh.triangles.now mesh.vertices parts }
    ensures { Counted mesh.entry.vertices mesh.entry.triangles.now result }
{
    let edges = edge_count(mesh.triangles.len());
    Counts {
        vertices: mesh.vertices,
        edges,
        triangles: mesh.triangles.len(),
        euler: euler_number(mesh.vertices, edges, mesh.triangles.len()),
        parts,
    }
}

// The verdict on the triangles, on the vertices below `vertices`, with a record for each.
fn judge(
    vertices: u32,
    triangles: &[Triangle<u32>],
    edges: &mut [Option<Entry<DirectedEdge>>],
    records: &mut [VertexRecord],
) -> Verdict
    requires size { length records.old ≡ vertices }
    requires room { 3 * length triangles.now ≤ length edges.old }
    ensures { Judged vertices triangles.now (report result).0 (report result).1 }
{
    if let Some(k) = first_misnamed(vertices, triangles) {
        return Verdict::Misnamed(k);
    }
    let mesh = NamedMesh {
        vertices,
        triangles,
    };
    let mut map = KeyMap::over(edges);
    if let Some(k) = first_doubled(mesh, &mut map) {
        return Verdict::Doubled(k);
    }
    if let Some(k) = first_unpaired(mesh, &map) {
        return Verdict::Unpaired(k);
    }
    let survey = Survey::new(mesh, records);
    if let Some(v) = survey.first_without() {
        return Verdict::Bare(v as u32);
    }
    if let Some(v) = survey.first_early(&map) {
        return Verdict::Torn(v as u32);
    }
    Verdict::Sound(surface_counts(mesh, part_count(survey)))
}

// Inspects the mesh of these triangles on the vertices below `vertex_count`: the first fault that there is, at its lowest place, or the
// counts of a closed oriented surface. `edges` and `records` are working tables, of at least three entries for each triangle and a
// record for each vertex; what they hold is lost, unless a table is too short and the call refused.
pub fn inspect(
    vertex_count: u32,
    triangles: &[Triangle<u32>],
    edges: &mut [Option<Entry<DirectedEdge>>],
    records: &mut [VertexRecord],
) -> Result<Verdict, Refusal>
    ensures answer { Inspected vertex_count triangles.now (length edges.old) (length records.old) result }
    ensures surface { IfOk result (SoundForSurfaces vertex_count triangles.now) }
    ensures refused { OnErr result ((edges.new ≡ edges.old) × (records.new ≡ records.old)) }
    ensures determined { OneEdgeCount × OnePartCount }
{
    check_room(vertex_count, triangles.len(), edges.len(), records.len())?;
    Ok(judge(
        vertex_count,
        triangles,
        edges,
        &mut records[..vertex_count as usize],
    ))
}
