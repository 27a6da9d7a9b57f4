//! The worked examples, as one statement.
ghost use Rattle.reference.specs.Marked.{Marked};

/// The definition of a sample gives the worked examples' values.
// `cost` has these rows in its table too: this crate is read and used without that one.
#[tactic(auto, unfolding(crate::specs::Interpolation::quarter, crate::specs::Interpolation::cell, crate::specs::Interpolation::across, crate::specs::Interpolation::tap, crate::specs::Interpolation::rounded))]
pub fn examples_hold()
    ensures { Marked }
{}
