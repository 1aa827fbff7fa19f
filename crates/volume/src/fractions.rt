// A fraction of the way from the inside end of an edge to its outside end.
#[derive(Clone, Copy, PartialEq, Eq, Debug)]
pub struct Fraction {
    pub num: u64,
    pub den: u64,
}
