//! What a search keeps.
use cost::Candidate;

/// The candidate held, in the stage's unit, its cost, and all trials and strips read since the opening.
#[derive(Clone, Copy)]
pub struct Tally {
    pub held: Candidate,
    pub cost: u32,
    pub trials: u64,
    pub strips: u64,
}
