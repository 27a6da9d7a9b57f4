//! What vectors are priced with: the settings, the predicted vectors and the centres of windows.
#![tactic(auto)]

mod centres;
mod predicted;
mod ranges;
mod setting_up;
mod setups;

pub use centres::{centre, centre_of};
pub use predicted::{Predicted, vet_arrays};
pub use ranges::SearchRange;
pub use setups::Setup;
