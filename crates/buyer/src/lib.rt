//! A buyer's own list, measure and pattern, and a search with them.
#![tactic(auto)]

mod corners;
mod levels;
mod middles;
mod searching;
#[cfg(test)]
mod tests;

pub use corners::Corners;
pub use levels::Levels;
pub use middles::MiddleRows;
pub use searching::{replay_corners, walk_corners};
