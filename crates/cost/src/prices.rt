//! What pricing a candidate tells.
use rate::Vector;

/// A vector in quarter samples, the rate part of its cost, and the cost J.
#[derive(Clone, Copy, PartialEq, Eq, Debug)]
pub struct Price {
    pub vector: Vector,
    pub rate_part: u32,
    pub cost: u32,
}

/// A trial under a bound: the cost J, where it is below the bound, else the running total that reached it; and the
/// strips read.
#[derive(Clone, Copy, PartialEq, Eq, Debug)]
pub struct Trial {
    pub cost: Result<u32, u32>,
    pub strips: usize,
}
