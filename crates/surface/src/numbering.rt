ghost use Rattle.std.specs.Prelude.{◌≡◌, ℕ, ◌<◌, ◌≤◌, None, length, replicate, count_by};
ghost use Rattle.keymap.specs.Frees.{free};
ghost use Rattle.surface.specs.Fits.{Fits};
ghost use Rattle.surface.specs.Needs.{bare};
ghost use Rattle.surface.specs.States.{numbering, named, number};
ghost use Rattle.surface.specs.Views.{numbered};

use crate::fields::Field;
use crate::records::Records;
use crate::tables::Numbering;
use grid::GridEdge;
use keymap::{Entry, KeyMap};
use mesh::Vertex;

impl<'a> Numbering<'a> {
    // No edge has a vertex yet.
    pub fn over(
        entries: &'a mut [Option<Entry<GridEdge>>],
        vertices: &'a mut [Vertex],
    ) -> Numbering<'a>
        ensures { numbered result ≡ numbering (replicate (length entries.old) None) vertices.old 0 }
    {
        let mut map = KeyMap::over(entries);
        map.clear();
        Numbering {
            map,
            vertices: Records::over(vertices),
        }
    }

    // How many entries of the map are free.
    pub fn free_entries(&self) -> usize
        ensures { result ≡ free self.now.map.entries.now }
    {
        self.map.len() - self.vertices.count as usize
    }

    // Whether an edge has no vertex.
    #[tactic(auto, unfolding(grid::specs::EdgeKeys::vertex_on))]
    fn is_bare(&self, edge: &GridEdge) -> bool
        ensures { result ≡ bare self.now.map.entries.now edge.now }
    {
        self.map.get(edge).is_none()
    }

    // How many of these edges have no vertex.
    pub fn bare_edges(&self, edges: &[GridEdge]) -> usize
        ensures { result ≡ count_by (bare self.now.map.entries.now) edges.now }
    {
        edges.iter().filter(|&edge| self.is_bare(edge)).count()
    }

    // The number of the vertex on a grid edge, which gets the next one where it has none.
    pub fn vertex_number<F: Field>(&mut self, field: &F, edge: GridEdge) -> u32
        requires { Fits (numbered self.old) edge }
        ensures after { numbered self.new ≡ named (F.Field.field field.now).place (numbered self.old) edge }
        ensures number { result ≡ number (numbered self.old) edge }
        ensures same_map { self.new.map.entries.ghost_name ≡ self.old.map.entries.ghost_name }
        ensures same_vertices { self.new.vertices.items.ghost_name ≡ self.old.vertices.items.ghost_name }
    {
        if let Some(number) = self.map.get(&edge) {
            return number;
        }
        let number = self.vertices.count;
        self.map.insert(edge, number).unwrap();
        let at = field.place(edge);
        self.vertices.push(Vertex { edge, at });
        number
    }
}
