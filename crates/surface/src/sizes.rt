use std::fmt;

// So many vertices and triangles.
#[derive(Clone, Copy, PartialEq, Eq, Debug, Default)]
pub struct Counts {
    pub vertices: u32,
    pub triangles: u32,
}

// `N vertices, M triangles`.
impl fmt::Display for Counts {
    ghost use Rattle.std.specs.Prelude.{Some};
    ghost use Rattle.surface.specs.Texts.{counts_text};

    ghost output = { λ counts. Some (counts_text counts) };

    fn fmt<W: fmt::Write>(&self, f: &mut fmt::Formatter<W>) -> fmt::Result {
        let Counts {
            vertices,
            triangles,
        } = *self;
        write!(f, "{vertices} vertices, {triangles} triangles")
    }
}
