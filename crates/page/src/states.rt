ghost use Rattle.std.specs.Prelude.{◌≡◌, ◌≤◌, length, None};
ghost use Rattle.std.proofs.lemmas.List.Edits.{sets};
ghost use Rattle.page.specs.Lines.{first_from, line, line_refusal};
ghost use Rattle.page.specs.Answers.{TextAnswer, BeginAnswer, page_refusal, LineAnswer, VertexAnswer, FaceAnswer, Ended, for_faces, done};

use crate::text::{Line, Text, heading};
use grid::Triangle;
use mesh::Coordinates;
use refusal::Refusal;
use std::marker::PhantomData;

// The largest coordinate, in ten-thousandths.
const LARGEST: u64 = 2_550_000;

// A page in the stage whose lines show an `L` each: the counts announced, the stage's lines written, and the first free byte of the
// buffer.
pub struct Open<L> {
    vertices: u64,
    faces: u64,
    written: u64,
    free: usize,
    stage: PhantomData<L>,
}

// A page that takes vertex lines.
pub type OpenForVertices = Open<Coordinates>;

// A page that takes face lines.
pub type OpenForFaces = Open<Triangle<u32>>;

// A page that has all its lines, and how many bytes it takes.
pub struct Finished {
    length: usize,
}

// A page that is given back as it was, and why.
pub struct Declined<P> {
    pub page: P,
    pub why: Refusal,
}

// Where a refusal is passed on by `?`, the page is given up.
impl<L> From<Declined<Open<L>>> for Refusal {
    ghost from_gives = { λ d r. r ≡ d.why };

    fn from(value: Declined<Open<L>>) -> Refusal {
        let Declined { page, why } = value;
        page.abandon();
        why
    }
}

// The first of a line's numbers that is not below a bound.
fn first_from(bound: u64, numbers: [u32; 3]) -> Option<u32>
    ensures { result ≡ first_from bound numbers }
{
    numbers.iter().copied().find(|n| u64::from(*n) >= bound)
}

// Copies a text to the start of a part of the buffer.
fn put(part: &mut [u8], text: &[u8])
    requires { length text.now ≤ length part.old }
    ensures { part.new ≡ sets part.old 0 text.now }
{
    part[..text.len()].copy_from_slice(text);
}

// Writes a text at the first free byte, where there is room for it, and answers the next free byte.
fn append(buffer: &mut [u8], free: usize, text: &Text) -> Result<usize, Refusal>
    ensures { TextAnswer (line_refusal None (length text.now.bytes) free (length buffer.old)) free text.now.bytes buffer.old buffer.new result }
{
    if buffer.len() < free || buffer.len() - free < text.len() {
        return Err(Refusal::PageRoom(free as u64));
    }
    put(&mut buffer[free..], text.as_bytes());
    Ok(free + text.len())
}

// Writes the first two lines of a page for so many vertices and faces.
pub fn begin(buffer: &mut [u8], vertices: u64, faces: u64) -> Result<OpenForVertices, Refusal>
    ensures { BeginAnswer vertices faces buffer.old buffer.new result }
{
    let free = append(buffer, 0, &heading(vertices, faces))?;
    Ok(Open {
        vertices,
        faces,
        written: 0,
        free,
        stage: PhantomData,
    })
}

impl<L: Line> Open<L> {
    // Writes a line where fewer than `announced` are written, its numbers are below `bound` and it has room, and answers the next free
    // byte.
    fn write(
        &self,
        buffer: &mut [u8],
        shown: L,
        announced: u64,
        bound: u64,
    ) -> Result<usize, Refusal>
        ensures { TextAnswer (page_refusal announced self.now (line bound (L.numbers shown) (L.text shown)) (length buffer.old)) self.now.free (L.text shown) buffer.old buffer.new result }
    {
        if self.written >= announced {
            return Err(Refusal::LineCount(self.written));
        }
        if let Some(number) = first_from(bound, shown.numbers()) {
            return Err(Refusal::Outside(number));
        }
        append(buffer, self.free, &shown.text())
    }

    // The page with one more line, or the page as it was.
    fn with_line(
        mut self,
        buffer: &mut [u8],
        shown: L,
        announced: u64,
        bound: u64,
    ) -> Result<Open<L>, Declined<Open<L>>>
        ensures { LineAnswer announced self (line bound (L.numbers shown) (L.text shown)) buffer.old buffer.new result }
    {
        match self.write(buffer, shown, announced, bound) {
            Ok(free) => {
                self.written += 1;
                self.free = free;
                Ok(self)
            }
            Err(why) => Err(Declined { page: self, why }),
        }
    }
}

impl<L> Open<L> {
    // The page, where it has all of its stage's `announced` lines.
    fn full(self, announced: u64) -> Result<Open<L>, Declined<Open<L>>>
        ensures { Ended announced self.written self self result }
    {
        if self.written != announced {
            let why = Refusal::LineCount(self.written);
            return Err(Declined { page: self, why });
        }
        Ok(self)
    }

    // Gives the page up.
    pub fn abandon(self) {
        let Open {
            vertices: _,
            faces: _,
            written: _,
            free: _,
            stage: _,
        } = self;
    }
}

impl Open<Coordinates> {
    // Writes a vertex line.
    pub fn vertex(
        self,
        buffer: &mut [u8],
        at: Coordinates,
    ) -> Result<OpenForVertices, Declined<OpenForVertices>>
        ensures { VertexAnswer self at buffer.old buffer.new result }
    {
        let announced = self.vertices;
        self.with_line(buffer, at, announced, LARGEST + 1)
    }

    // Goes on to the faces.
    pub fn end_vertices(self) -> Result<OpenForFaces, Declined<OpenForVertices>>
        ensures { Ended self.vertices self.written self (for_faces self) result }
    {
        let vertices = self.vertices;
        let Open {
            vertices: _,
            faces,
            written: _,
            free,
            stage: _,
        } = self.full(vertices)?;
        Ok(Open {
            vertices,
            faces,
            written: 0,
            free,
            stage: PhantomData,
        })
    }
}

impl Open<Triangle<u32>> {
    // Writes a face line.
    pub fn face(
        self,
        buffer: &mut [u8],
        face: Triangle<u32>,
    ) -> Result<OpenForFaces, Declined<OpenForFaces>>
        ensures { FaceAnswer self face buffer.old buffer.new result }
    {
        let announced = self.faces;
        let bound = self.vertices;
        self.with_line(buffer, face, announced, bound)
    }

    // Closes the page.
    pub fn finish(self) -> Result<Finished, Declined<OpenForFaces>>
        ensures { Ended self.faces self.written self (done self) result }
    {
        let faces = self.faces;
        let Open {
            vertices: _,
            faces: _,
            written: _,
            free,
            stage: _,
        } = self.full(faces)?;
        Ok(Finished { length: free })
    }
}

impl Finished {
    // How many bytes the page takes.
    pub fn length(self) -> usize
        ensures { result ≡ self.length }
    {
        let Finished { length } = self;
        length
    }
}
