//! Patterns: ordered lists of offsets that a search tries about a vector.
#![tactic(auto)]

mod crosses;
mod diamonds;
mod offsets;
mod patterns;
mod rings;
mod squares;
mod supplied;
mod tables;

pub use crosses::Cross;
pub use diamonds::{Diamond, Hexagon};
pub use patterns::Pattern;
pub use rings::Rings;
pub use squares::{Eight, Square};
pub use supplied::{Name, Supplied};
pub use tables::Listed;
