//! The pictures of a reference list over the caller's bytes.
ghost use Rattle.std.specs.Prelude.{◌≡◌, ℕ, ◌*◌, ◌<◌, length, slice_index};

use crate::sizes::ListSize;

/// 1 to 16 pictures of one size, back to back, numbered from 0.
#[derive(Clone, Copy)]
pub struct ReferencePictures<'a> {
    pub size: ListSize,
    pub samples: &'a [u8],
    ghost full: { length samples.now ≡ size.pictures * (size.picture.height * size.picture.width) },
    ghost bytes: { (k : ℕ) → slice_index samples.now k < 256 },
}

impl<'a> ReferencePictures<'a> {
    /// The pictures of a vetted list over their bytes.
    pub fn new(size: ListSize, samples: &'a [u8]) -> Self
        requires full { length samples.now ≡ size.pictures * (size.picture.height * size.picture.width) }
        ensures size { result.size ≡ size }
        ensures samples { result.samples.now ≡ samples.now }
    {
        ReferencePictures { size, samples }
    }
}
