//! What programs that compare results with a table share: the counts, and the numbers of a record.
#![tactic(auto)]

mod counts;
mod reading;

pub use counts::Tally;
pub use reading::{BadRecord, numbers};
