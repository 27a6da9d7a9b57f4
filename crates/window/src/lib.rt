//! Windows and stages: where a search may look, in which unit, and in which order a full round goes.
#![tactic(auto)]

mod quarters;
mod rounds;
mod stages;
mod stepping;
mod wholes;
mod windows;

pub use quarters::Quarter;
pub use rounds::Round;
pub use stages::Stage;
pub use stepping::full_rounds_cover;
pub use wholes::Whole;
pub use windows::{contains, contains_across, contains_down};
