//! The worked examples, as one statement.
ghost use Rattle.cost.specs.Marked.{Marked};

/// The definitions that the engine is proved to follow give every figure of the table of worked examples.
pub fn examples_hold()
    ensures { Marked }
{}
