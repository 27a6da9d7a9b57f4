//! What a job lends.
ghost use Rattle.std.specs.Prelude.{◌≡◌};
ghost use Rattle.job.specs.Format.{current_in, reference_in, predicted_x, predicted_y, proposed_x, proposed_y};

use crate::jobs::Job;
use crate::vectors::Vectors;
use picture::{Plane, ReferencePictures};

impl<'a> Job<'a> {
    /// The current picture.
    pub fn current(&self) -> Plane<'a>
        ensures size { result.size ≡ self.now.header.list.picture }
        ensures samples { result.samples.now ≡ current_in self.now.bytes.now }
    {
        let from = self.header.pixels_from();
        Plane::new(
            self.header.list.picture,
            &self.bytes[from..from + self.header.list.picture.area()],
        )
    }

    /// The reference pictures.
    pub fn reference(&self) -> ReferencePictures<'a>
        ensures size { result.size ≡ self.now.header.list }
        ensures samples { result.samples.now ≡ reference_in self.now.bytes.now }
    {
        let from = self.header.pixels_from() + self.header.list.picture.area();
        ReferencePictures::new(self.header.list, &self.bytes[from..])
    }

    /// The predicted vectors of the pictures, in quarter samples.
    pub fn predicted(&self) -> Vectors<'_>
        ensures xs { result.xs.now ≡ predicted_x self.now.bytes.now }
        ensures ys { result.ys.now ≡ predicted_y self.now.bytes.now }
    {
        let count = self.header.list.pictures;
        Vectors {
            xs: &self.xs[0..count],
            ys: &self.ys[0..count],
        }
    }

    /// The proposals, in whole samples.
    // As the predicted vectors: the range is all that differs, and a call would take its two ends.
    pub fn proposals(&self) -> Vectors<'_>
        ensures xs { result.xs.now ≡ proposed_x self.now.bytes.now }
        ensures ys { result.ys.now ≡ proposed_y self.now.bytes.now }
    {
        let from = self.header.list.pictures;
        let to = from + self.header.proposals;
        Vectors {
            xs: &self.xs[from..to],
            ys: &self.ys[from..to],
        }
    }
}
