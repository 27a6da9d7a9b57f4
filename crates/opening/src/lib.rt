//! What the bench programs open a job with: its bytes, then its block and its settings.
#![tactic(auto)]

mod inputs;
mod lines;
mod openings;

pub use inputs::read_job;
pub use lines::Line;
pub use openings::{open, set_up};
