use std::fmt;

// What a sound mesh counts: its vertices, mesh edges and triangles, the Euler number, which is the first less the second plus the
// third, and its parts.
#[derive(Clone, Copy, PartialEq, Eq, Debug)]
pub struct Counts {
    pub vertices: u32,
    pub edges: usize,
    pub triangles: usize,
    pub euler: i64,
    pub parts: u32,
}

// The counts print each after its sign or its name.
impl fmt::Display for Counts {
    ghost use Rattle.std.specs.Prelude.{Some};
    ghost use Rattle.mesh.specs.Texts.{counts_text};

    ghost output = { λ counts. Some (counts_text counts) };

    fn fmt<W: fmt::Write>(&self, f: &mut fmt::Formatter<W>) -> fmt::Result {
        let Counts {
            vertices,
            edges,
            triangles,
            euler,
            parts,
        } = *self;
        write!(f, "V {vertices} E {edges} F {triangles}")?;
        write!(f, ", Euler number {euler}, parts {parts}")
    }
}

// What an inspection finds.
#[derive(Clone, Copy, PartialEq, Eq, Debug)]
pub enum Verdict {
    // This triangle names a vertex that the mesh does not have, or one vertex twice.
    Misnamed(usize),
    // This triangle has a directed edge of an earlier one.
    Doubled(usize),
    // This triangle has a directed edge without its reverse.
    Unpaired(usize),
    // This vertex has no triangle.
    Bare(u32),
    // The triangles at this vertex form more than one ring.
    Torn(u32),
    // The mesh is a closed oriented surface.
    Sound(Counts),
}

// A verdict prints as the fault, by its number and place, or as sound, with the counts.
impl fmt::Display for Verdict {
    ghost use Rattle.std.specs.Prelude.{Some};
    ghost use Rattle.mesh.specs.Texts.{verdict_text};

    ghost output = { λ verdict. Some (verdict_text verdict) };

    fn fmt<W: fmt::Write>(&self, f: &mut fmt::Formatter<W>) -> fmt::Result {
        match self {
            Verdict::Misnamed(place) => {
                write!(
                    f,
                    "fault 1, triangle {place} names a wrong vertex or one twice"
                )
            }
            Verdict::Doubled(place) => {
                write!(
                    f,
                    "fault 2, triangle {place} has a directed edge of an earlier one"
                )
            }
            Verdict::Unpaired(place) => {
                write!(
                    f,
                    "fault 3, triangle {place} has a directed edge without its reverse"
                )
            }
            Verdict::Bare(place) => write!(f, "fault 4, vertex {place} has no triangle"),
            Verdict::Torn(place) => {
                write!(
                    f,
                    "fault 5, the triangles at vertex {place} form more than one ring"
                )
            }
            Verdict::Sound(counts) => write!(f, "sound, {counts}"),
        }
    }
}

// What an inspection notes of a vertex: its parent in a tree of its part, a vertex that follows it in a triangle, and the number of its
// triangles.
#[derive(Clone, Copy, Default)]
pub struct VertexRecord {
    pub parent: u32,
    pub neighbour: u32,
    pub degree: usize,
}
