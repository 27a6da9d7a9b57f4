//! A picture over the caller's bytes.
ghost use Rattle.std.specs.Prelude.{◌≡◌, ℕ, ◌*◌, ◌<◌, length, slice_index};

use crate::sizes::PictureSize;

/// Samples row by row, one byte each. The type ties the number of bytes to the size.
#[derive(Clone, Copy)]
pub struct Plane<'a> {
    pub size: PictureSize,
    pub samples: &'a [u8],
    ghost full: { length samples.now ≡ size.height * size.width },
    ghost bytes: { (k : ℕ) → slice_index samples.now k < 256 },
}

impl<'a> Plane<'a> {
    /// The picture of a vetted size over its bytes.
    pub fn new(size: PictureSize, samples: &'a [u8]) -> Self
        requires full { length samples.now ≡ size.height * size.width }
        ensures size { result.size ≡ size }
        ensures samples { result.samples.now ≡ samples.now }
    {
        Plane { size, samples }
    }
}
