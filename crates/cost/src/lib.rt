//! What a candidate costs: its rate part and the costs of the block's strips, over any list and by any measure.
#![tactic(auto)]

mod candidates;
mod centres;
mod marked;
mod prices;
mod pricing;
mod rating;
mod stages;
mod strips;

pub use candidates::Candidate;
pub use centres::price_centre;
pub use marked::examples_hold;
pub use prices::{Price, Trial};
pub use pricing::Pricing;
pub use rating::rate_part;
