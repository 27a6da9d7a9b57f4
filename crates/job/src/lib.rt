//! The job format: the bytes of a job to what they mean, or the fault that refuses them.
#![tactic(auto)]

mod headers;
mod jobs;
mod layouts;
mod lends;
mod reading;
mod vectors;
mod vetting;

pub use headers::Header;
pub use jobs::Job;
pub use vectors::Vectors;
pub use vetting::{LONGEST, vet_job};
