ghost use Rattle.std.specs.Prelude.{◌≡◌, Some};
ghost use Rattle.refusal.specs.Refusals.{axis_number, part_number, code as code_of, line};

use std::error::Error;
use std::fmt;

// An axis of the grid.
#[derive(Clone, Copy, PartialEq, Eq, Debug)]
pub enum Axis {
    X,
    Y,
    Z,
}

// A part of a ratio.
#[derive(Clone, Copy, PartialEq, Eq, Debug)]
pub enum Part {
    Numerator,
    Denominator,
}

// Why a call is refused. A refused call changes nothing.
#[derive(Clone, Copy, PartialEq, Eq, Debug)]
pub enum Refusal {
    // A side is not from 1 to 254: the lowest such axis.
    Side(Axis),
    // A cell, vertex or triangle number, an index or a coordinate lies outside: the first such number.
    Outside(u32),
    // The volume's shape is not the surface's: the lowest axis on which they differ.
    OtherShape(Axis),
    // The cell is marched already.
    Marched(u32),
    // The mark table has no entry for the cell.
    NoMark(u32),
    // The free entries are fewer than the cell's new vertices.
    EntryRoom(u32),
    // The vertex records left are fewer than the cell's new vertices.
    VertexRoom(u32),
    // The triangle records left are fewer than the cell's triangles.
    TriangleRoom(u32),
    // A file is shorter or longer than it has to be: the length due.
    FileLength(u64),
    // The kind byte of a file is neither 1 nor 2.
    FileKind,
    // A part of a ratio is above 4,095, or its denominator is 0: the first such part.
    RatioPart(Part),
    // A table is too short for what is read into it: the length needed.
    TableRoom(u64),
    // The page has no room for a line: its first free byte.
    PageRoom(u64),
    // A line exceeds the announced count, or a stage is ended short of it: the stage's lines written.
    LineCount(u64),
    // A working table is too short: the length needed.
    WorkRoom(u64),
}

// A refusal as it is reported.
#[derive(Clone, Copy, PartialEq, Eq, Debug)]
pub struct Code {
    pub number: u8,
    pub place: u64,
}

impl From<Axis> for u64 {
    ghost from_gives = { λ axis n. n ≡ axis_number axis };

    fn from(axis: Axis) -> u64 {
        match axis {
            Axis::X => 0,
            Axis::Y => 1,
            Axis::Z => 2,
        }
    }
}

impl From<Part> for u64 {
    ghost from_gives = { λ part n. n ≡ part_number part };

    fn from(part: Part) -> u64 {
        match part {
            Part::Numerator => 0,
            Part::Denominator => 1,
        }
    }
}

impl Refusal {
    // The number of the refusal, and its place.
    pub fn report(self) -> Code
        ensures { (result.number, result.place) ≡ code_of self }
    {
        let (number, place) = match self {
            Refusal::Side(axis) => (1, u64::from(axis)),
            Refusal::Outside(number) => (2, u64::from(number)),
            Refusal::OtherShape(axis) => (3, u64::from(axis)),
            Refusal::Marched(cell) => (4, u64::from(cell)),
            Refusal::NoMark(cell) => (5, u64::from(cell)),
            Refusal::EntryRoom(cell) => (6, u64::from(cell)),
            Refusal::VertexRoom(cell) => (7, u64::from(cell)),
            Refusal::TriangleRoom(cell) => (8, u64::from(cell)),
            Refusal::FileLength(due) => (9, due),
            Refusal::FileKind => (10, 0),
            Refusal::RatioPart(part) => (11, u64::from(part)),
            Refusal::TableRoom(needed) => (12, needed),
            Refusal::PageRoom(free) => (13, free),
            Refusal::LineCount(written) => (14, written),
            Refusal::WorkRoom(needed) => (15, needed),
        };
        Code { number, place }
    }
}

// `refused N P`: the number of the refusal, and its place.
impl fmt::Display for Refusal {
    ghost output = { λ e. Some (line e) };

    fn fmt<W: fmt::Write>(&self, f: &mut fmt::Formatter<W>) -> fmt::Result {
        let Code { number, place } = self.report();
        write!(f, "refused {number} {place}")
    }
}

impl Error for Refusal {}
