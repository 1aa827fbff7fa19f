ghost use Rattle.std.specs.Prelude.{◌≡◌, ℕ, ◌<◌, ◌≤◌, None, Some, length, replicate, count_by, MatchResult};
ghost use Rattle.surface.specs.Fits.{FitsTriangle, FitsAll};
ghost use Rattle.surface.specs.Marches.{room_refusal};
ghost use Rattle.surface.specs.Needs.{bare};
ghost use Rattle.surface.specs.Rooms.{room_left};
ghost use Rattle.surface.specs.States.{numbering, tables, added, added_all};
ghost use Rattle.surface.specs.Views.{numbered, tabled};

use crate::fields::Field;
use crate::records::Records;
use crate::sizes::Counts;
use crate::tables::{Numbering, Tables};
use grid::{GridEdge, Triangle};
use keymap::Entry;
use mesh::Vertex;
use refusal::Refusal;

impl<'a> Tables<'a> {
    // No vertex and no triangle is there yet.
    pub fn over(
        entries: &'a mut [Option<Entry<GridEdge>>],
        vertices: &'a mut [Vertex],
        triangles: &'a mut [Triangle<u32>],
    ) -> Tables<'a>
        ensures { tabled result ≡ tables (numbering (replicate (length entries.old) None) vertices.old 0) triangles.old 0 }
    {
        Tables {
            numbering: Numbering::over(entries, vertices),
            triangles: Records::over(triangles),
        }
    }

    // What a cell of these crossed edges and these triangles needs.
    pub fn need(&self, edges: &[GridEdge], triangles: &[Triangle<GridEdge>]) -> Counts
        requires edges { length edges.now ≤ 19 }
        requires triangles { length triangles.now ≤ 12 }
        ensures vertices { result.vertices ≡ count_by (bare self.now.numbering.map.entries.now) edges.now }
        ensures triangles { result.triangles ≡ length triangles.now }
    {
        Counts {
            vertices: self.numbering.bare_edges(edges) as u32,
            triangles: triangles.len() as u32,
        }
    }

    // Whether there is room for the need of a cell: free entries, vertex records and triangle records, in this order.
    pub fn check_room(&self, need: Counts, cell: u32) -> Result<(), Refusal>
        ensures { MatchResult result (λ _. room_refusal (tabled self.now) need cell ≡ None) (λ e. room_refusal (tabled self.now) need cell ≡ Some e) }
    {
        if need.vertices as usize > self.numbering.free_entries() {
            return Err(Refusal::EntryRoom(cell));
        }
        if need.vertices as usize > self.numbering.vertices.room() {
            return Err(Refusal::VertexRoom(cell));
        }
        if need.triangles as usize > self.triangles.room() {
            return Err(Refusal::TriangleRoom(cell));
        }
        Ok(())
    }

    // Adds a triangle, by the grid edges that carry its corners.
    fn add<F: Field>(&mut self, field: &F, triangle: Triangle<GridEdge>)
        requires fits { FitsTriangle (F.Field.field field.now).place (numbered self.old.numbering) triangle }
        requires room { 0 < room_left (length self.old.triangles.items.now) self.old.triangles.count }
        ensures after { tabled self.new ≡ added (F.Field.field field.now).place (tabled self.old) triangle }
        ensures long { length self.new.triangles.items.now ≡ length self.old.triangles.items.now }
        ensures same_map { self.new.numbering.map.entries.ghost_name ≡ self.old.numbering.map.entries.ghost_name }
        ensures same_vertices { self.new.numbering.vertices.items.ghost_name ≡ self.old.numbering.vertices.items.ghost_name }
        ensures same_triangles { self.new.triangles.items.ghost_name ≡ self.old.triangles.items.ghost_name }
    {
        let a = self.numbering.vertex_number(field, triangle.a);
        let b = self.numbering.vertex_number(field, triangle.b);
        let c = self.numbering.vertex_number(field, triangle.c);
        self.triangles.push(Triangle { a, b, c });
    }

    // Adds triangles, one after the other.
    pub fn add_all<F: Field>(&mut self, field: &F, list: &[Triangle<GridEdge>])
        requires fits { FitsAll (F.Field.field field.now).place (tabled self.old) list.now }
        requires room { length list.now ≤ room_left (length self.old.triangles.items.now) self.old.triangles.count }
        ensures after { tabled self.new ≡ added_all (F.Field.field field.now).place (tabled self.old) list.now }
        ensures same_map { self.new.numbering.map.entries.ghost_name ≡ self.old.numbering.map.entries.ghost_name }
        ensures same_vertices { self.new.numbering.vertices.items.ghost_name ≡ self.old.numbering.vertices.items.ghost_name }
        ensures same_triangles { self.new.triangles.items.ghost_name ≡ self.old.triangles.items.ghost_name }
    {
        for triangle in list {
            self.add(field, *triangle);
        }
    }
}
