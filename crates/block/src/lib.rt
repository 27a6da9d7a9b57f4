//! Blocks of the current picture: their shapes, their places, and a copy of their samples.
#![tactic(auto)]

mod blocks;
mod copying;
mod places;
mod shapes;

pub use blocks::Block;
pub use places::BlockRequest;
pub use shapes::Shape;
