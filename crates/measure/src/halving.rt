//! Nothing is rounded in SATD.
ghost use Rattle.measure.specs.Halving.{ExactHalf};

/// Twice what a square costs under SATD is the whole sum, of any sixteen differences, and why: |s + t| + |s - t| is even.
pub fn halving_is_exact()
    ensures { ExactHalf }
{}
