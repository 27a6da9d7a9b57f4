//! The interface of a pattern. A buyer's own pattern implements this.
ghost use Rattle.std.specs.Prelude.{◌≡◌, ℕ, ◌≤◌, List, length, slice_index_or};
ghost use Rattle.rate.specs.declared.vectors.Vector.{Vector as Offset};
ghost use Rattle.pattern.specs.Offsets.{still, Within};

use rate::Vector;

/// An ordered list of offsets, in whole samples in the first stage and in quarter samples in the second; asking alters nothing.
pub trait Pattern {
    /// The offsets, in the order in which they are tried.
    ghost offsets: { Self → List Offset };

    /// How many offsets there are.
    fn len(&self) -> usize
        ensures { result ≡ length (offsets self.now) };

    /// The offset at an index; (0, 0) past the last.
    fn offset(&self, i: usize) -> Vector
        ensures { result ≡ slice_index_or (offsets self.now) i still };

    /// There are 1,024 offsets at most.
    ghost few: { (p : Self) → length (offsets p) ≤ 1024 };

    /// Every component is from -64 to 64.
    ghost short: { (p : Self) (k : ℕ) → Within 64 (slice_index_or (offsets p) k still) };
}
