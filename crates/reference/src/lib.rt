//! Reference lists: the interface, the computing list with H.264's quarter samples, and the drawn list.
#![tactic(auto)]

mod cells;
mod computed;
mod drawn;
mod extents;
mod lists;
mod marked;
mod parts;
mod patches;
mod patching;
mod positions;
mod reading;
mod taps;
mod vetting;

pub use computed::ComputedList;
pub use drawn::DrawnList;
pub use lists::{ReferenceList, is_strip};
pub use marked::examples_hold;
pub use vetting::vet_drawn;
