#![tactic(auto)]

ghost use Rattle.std.specs.List.{AllByRecursion};
ghost use Rattle.examples.specs.Worked.{examples as worked, Holds};

// Worked examples as theorems: where the surface crosses an edge, which sides are taken, the room that a march needs, and
// what the meshes of small blocks count, however their cells are marched.
pub fn worked_examples() -> u8
    ensures { AllByRecursion Holds worked }
{
    0
}
