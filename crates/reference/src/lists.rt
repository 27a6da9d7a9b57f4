//! Reference lists: what a search asks of one. A buyer's own list implements this.
ghost use Rattle.std.specs.Prelude.{◌≡◌, ◌+◌, ◌*◌, ◌/◌, ◌≤◌, true, length, pos, ◌+ℤ◌, ◌≤ℤ◌};
ghost use Rattle.reference.specs.Bounds.{Reaches};
ghost use Rattle.reference.specs.Lists.{ListMeaning, is_strip, strip_of};

use crate::extents::{Extent, fill_rows};

/// 1 to 16 pictures of one size; nothing that is asked alters the list.
pub trait ReferenceList {
    /// What the list means; its limits are part of that.
    ghost meaning: { Self → ListMeaning };

    /// The number of pictures.
    fn len(&self) -> usize
        ensures { result ≡ (meaning self.now).pictures };

    fn width(&self) -> usize
        ensures { result ≡ (meaning self.now).width };

    fn height(&self) -> usize
        ensures { result ≡ (meaning self.now).height };

    /// The sample at (`x`, `y`) in quarter samples; 0 in a picture that there is not.
    // Numbers, and no struct of them: what a buyer writes is a formula of these three.
    fn sample(&self, picture: usize, x: i16, y: i16) -> u8
        ensures { result ≡ (meaning self.now).at picture x y };

    /// Four rows of 4, 8 or 16 samples, a whole sample apart, from (`x`, `y`) on.
    fn strip(&self, picture: usize, x: i16, y: i16, out: &mut [u8])
        requires room { (x ≤ℤ pos 32707) × (y ≤ℤ pos 32755) }
        requires wide { is_strip (length out.old) ≡ true }
        ensures { out.new ≡ strip_of (meaning self.now) picture x y (length out.old / 4) }
    {
        let extent = Extent {
            width: out.len() / 4,
            height: 4,
        };
        // Into memory of its own: the compiler has to see that a write changes nothing that the list's samples are worked out from.
        let mut samples = [0; 64];
        let strip = &mut samples[..out.len()];
        fill_rows(
            strip,
            extent,
            |column, row|
                requires { Reaches x column × Reaches y row }
            { self.sample(picture, along(x, column), along(y, row)) },
        );
        out.copy_from_slice(strip);
    }
}

/// Whether a strip may have so many samples: four rows of 4, 8 or 16.
// As `are_strips` of `measure`, of one length: neither crate stands on the other.
pub fn is_strip(n: usize) -> bool
    ensures { result ≡ is_strip n }
{
    matches!(n, 16 | 32 | 64)
}

/// `by` whole samples further, in quarter samples.
pub(crate) fn along(z: i16, by: usize) -> i16
    requires { Reaches z by }
    ensures { result ≡ z +ℤ pos (4 * by) }
{
    z + 4 * by as i16
}
