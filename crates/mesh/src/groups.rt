ghost use Rattle.std.specs.Prelude.{◌≡◌, ℕ, ◌^◌, ◌<◌, ◌≤◌, length};
ghost use Rattle.mesh.specs.Forests.{parent_of, roots, Forest, Settled, merge};

use crate::verdicts::VertexRecord;

// Vertices in groups, by the parents in their records: the way up from a vertex ends at the one that stands for its group.
#[derive(Drop)]
pub(crate) struct UnionFind<'a> {
    records: &'a mut [VertexRecord],
    ghost few: { length records.now < 2 ^ 32 },
    ghost lowered: { (x : ℕ) → x < length records.now → parent_of records.now x ≤ x },
}

impl<'a> UnionFind<'a> {
    // Each vertex, of one for each record, as a group of its own.
    pub fn new(records: &'a mut [VertexRecord]) -> UnionFind<'a>
        requires { length records.old < 2 ^ 32 }
        ensures size { length result.records.now ≡ length records.old }
        ensures apart { Forest (λ x. x) result.records.now }
    {
        for (v, record) in records.iter_mut().enumerate() {
            record.parent = v as u32;
        }
        UnionFind { records }
    }

    // The vertex that stands for the group of `vertex`. On the way each vertex met gets its parent's parent.
    fn find(&mut self, vertex: u32) -> u32
        requires { vertex < length self.old.records.now }
        ensures size { length self.new.records.now ≡ length self.old.records.now }
        ensures below { result ≤ vertex }
        ensures finds { (f : ℕ → ℕ) → Forest f self.old.records.now → Forest f self.new.records.now × (result ≡ f vertex) }
    {
        let mut x = vertex;
        while self.records[x as usize].parent != x {
            let up = self.records[x as usize].parent;
            let over = self.records[up as usize].parent;
            self.records[x as usize].parent = over;
            x = over;
        }
        x
    }

    // Makes one group of the groups of `u` and `v`, for which the lower of the two vertices stands that stood for them.
    pub fn join(&mut self, u: u32, v: u32)
        requires u_within { u < length self.old.records.now }
        requires v_within { v < length self.old.records.now }
        ensures size { length self.new.records.now ≡ length self.old.records.now }
        ensures joins { (f : ℕ → ℕ) → Settled f → Forest f self.old.records.now → Forest (merge f u v) self.new.records.now }
    {
        let p = self.find(u);
        let q = self.find(v);
        self.records[p.max(q) as usize].parent = p.min(q);
    }

    // How many vertices stand for a group.
    pub fn count(&self) -> u32
        ensures { result ≡ roots self.now.records.now }
    {
        self.records
            .iter()
            .enumerate()
            .filter(|(v, record)| record.parent as usize == *v)
            .count() as u32
    }
}
