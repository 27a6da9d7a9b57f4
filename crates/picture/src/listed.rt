//! One picture of a reference list, and its whole samples.
ghost use Rattle.std.specs.Prelude.{◌≡◌, ◌<◌, ◌≤◌, MatchOption};
ghost use Rattle.picture.specs.Pictures.{picture_of, whole_of};

use crate::pictures::ReferencePictures;
use crate::planes::Plane;

impl<'a> ReferencePictures<'a> {
    /// The picture of a number that the list has.
    pub fn plane(&self, picture: usize) -> Plane<'a>
        requires { picture < self.now.size.pictures }
        ensures size { result.size ≡ self.now.size.picture }
        ensures samples { result.samples.now ≡ picture_of self.now picture }
    {
        let bytes = self.size.picture.area();
        let from = picture * bytes;
        Plane::new(self.size.picture, &self.samples[from..from + bytes])
    }

    /// The picture of a number; nothing for one that the list has not.
    pub fn get(&self, picture: usize) -> Option<Plane<'a>>
        ensures { MatchOption result (self.now.size.pictures ≤ picture) (λ plane. (picture < self.now.size.pictures) × (plane.size ≡ self.now.size.picture) × (plane.samples.now ≡ picture_of self.now picture)) }
    {
        if picture < self.size.pictures {
            Some(self.plane(picture))
        } else {
            None
        }
    }

    /// The whole sample of column `x`, row `y` of a picture, clamped; 0 in a picture that there is not.
    pub fn whole(&self, picture: usize, x: i32, y: i32) -> u8
        ensures { result ≡ whole_of self.now picture x y }
    {
        self.get(picture).map_or(0, |plane| plane.whole(x, y))
    }
}
