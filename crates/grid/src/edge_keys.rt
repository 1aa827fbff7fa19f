ghost use Rattle.grid.specs.EdgeKeys.{edge_meaning, edge_hash};

use crate::geometry::GridEdge;
use keymap::Key;

impl Key for GridEdge {
    ghost meaning = { edge_meaning };

    ghost hashed = { edge_hash };

    fn same(&self, other: &GridEdge) -> bool {
        self == other
    }

    fn hash(&self) -> u32 {
        self.key()
    }
}
