ghost use Rattle.mesh.specs.Parts.{Groups};

use crate::groups::UnionFind;
use crate::rings::Survey;

// How many groups the vertices are in, where mesh edges join them.
pub(crate) fn part_count(survey: Survey<'_>) -> u32
    ensures { Groups survey.entry.mesh.triangles.now survey.entry.mesh.vertices result }
{
    let Survey { mesh, records } = survey;
    let mut groups = UnionFind::new(records);
    for t in mesh.triangles {
        groups.join(t.a, t.b);
        groups.join(t.b, t.c);
    }
    groups.count()
}
