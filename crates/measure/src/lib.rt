//! Measures: what it costs to take one strip of samples for another. SAD, SSD and SATD are supplied.
#![tactic(auto)]

mod asking;
mod halving;
mod measures;
mod pairs;
mod sums;
mod supplied;
mod transforms;

pub use asking::sad;
pub use halving::halving_is_exact;
pub use measures::{Measure, are_strips};
pub use supplied::{Sad, Satd, Ssd};
