//! A block of the current picture.
ghost use Rattle.std.specs.Prelude.{◌≡◌, ℕ, ◌<◌, ◌≤◌, length, slice_index};

use crate::shapes::Shape;

/// A copy of a block's samples, row by row from the first on, with its shape and its place.
#[derive(Clone, Copy)]
pub struct Block {
    pub shape: Shape,
    pub left: usize,
    pub top: usize,
    // Fixed memory, for the largest shape: the library never allocates.
    pub samples: [u8; 256],
    ghost near: { (left ≤ 1920) × (top ≤ 1920) },
}

impl Block {
    /// The first sample. That it is read tells a proof what the type of the array has: 256 samples, each a byte.
    pub fn first(&self) -> u8
        ensures value { result ≡ slice_index self.now.samples 0 }
        ensures full { length self.now.samples ≡ 256 }
        ensures bytes { (k : ℕ) → slice_index self.now.samples k < 256 }
    {
        self.samples[0]
    }
}
