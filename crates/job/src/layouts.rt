//! Where the parts of a job lie.
ghost use Rattle.std.specs.Prelude.{◌≡◌, ◌≤◌};
ghost use Rattle.job.specs.Layouts.{pixels_from, stated};

use crate::headers::Header;

impl Header {
    /// Where the pictures begin.
    pub(crate) fn pixels_from(&self) -> usize
        ensures value { result ≡ pixels_from self.now }
        ensures most { result ≤ 340 }
    {
        20 + 4 * (self.list.pictures + self.proposals)
    }

    /// The number of bytes that the job is to have.
    pub(crate) fn stated_length(&self) -> usize
        ensures { result ≡ stated self.now }
    {
        self.pixels_from() + self.list.picture.area() * (self.list.pictures + 1)
    }
}
