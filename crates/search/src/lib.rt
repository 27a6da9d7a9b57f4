//! A search: its opening, its calls and its end, over any list and by any measure, in either stage.
#![tactic(auto)]

mod calls;
mod closing;
mod entering;
mod following;
mod handing;
mod offering;
mod opening;
mod recipes;
mod replaying;
mod reports;
mod rounding;
mod running;
mod searches;
mod sweeping;
mod tallies;
#[cfg(test)]
mod tests;
mod trying;
mod walking;

pub use calls::{Answer, Call, Pairs};
pub use opening::Opening;
pub use recipes::{exhaustive, fast};
pub use replaying::{Outcome, ReplayError, SecondStage, replay};
pub use reports::Report;
pub use searches::Search;
