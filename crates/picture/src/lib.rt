//! Pictures over lent bytes: faults, sizes, vetting, planes and their whole samples.
#![tactic(auto)]

mod faults;
mod listed;
mod messages;
mod pictures;
mod planes;
mod sizes;
mod vetting;
mod whole;

pub use faults::{Fault, Layer, Row};
pub use pictures::ReferencePictures;
pub use planes::Plane;
pub use sizes::{ListSize, PictureSize};
pub use vetting::{vet_bytes, vet_count, vet_list, vet_picture, vet_size};
