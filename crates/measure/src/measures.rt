//! The interface of a measure. A buyer's own measure implements this.
ghost use Rattle.std.specs.Prelude.{◌≡◌, ℕ, ◌*◌, ◌≤◌, List, length};
ghost use Rattle.measure.specs.Strips.{Bytes, Strips, are_strips, asked};

/// What two strips of one width cost. A strip is four rows of 4, 8 or 16 samples, row after row; asking alters nothing.
pub trait Measure {
    /// The cost of two strips of one width, the block's first and the list's second.
    ghost cost: { Self → List ℕ → List ℕ → ℕ };

    /// The cost of two strips of one width; 0 where the widths are unequal, or not 4, 8 or 16.
    fn price(&self, a: &[u8], b: &[u8]) -> u32
        ensures { result ≡ asked (cost self.now) a.now b.now };

    /// No strip costs more than 65,025 times its samples.
    ghost most: { (m : Self) (a b : List ℕ) → Bytes a → Bytes b → Strips a b → cost m a b ≤ 65025 * length a };
}

/// Whether two slices of these lengths are strips of one width.
pub fn are_strips(m: usize, n: usize) -> bool
    ensures { result ≡ are_strips m n }
{
    m == n && matches!(m, 16 | 32 | 64)
}
