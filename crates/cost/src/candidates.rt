//! Candidates.
use rate::Vector;

/// A vector in a picture of a list; where it is priced, the vector is in quarter samples.
#[derive(Clone, Copy, PartialEq, Eq, Debug)]
pub struct Candidate {
    pub picture: usize,
    pub vector: Vector,
}
