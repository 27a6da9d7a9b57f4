//! Sizes of pictures and of lists of them.
ghost use Rattle.std.specs.Prelude.{◌≡◌, ◌*◌, ◌≤◌};
ghost use Rattle.picture.specs.Sizes.{Size};

/// A width and a height that a picture may have.
#[derive(Clone, Copy, PartialEq, Eq, Debug)]
pub struct PictureSize {
    pub width: usize,
    pub height: usize,
    ghost wide: { Size width },
    ghost high: { Size height },
}

/// The size of each picture of a list, and how many there are: 1 to 16.
#[derive(Clone, Copy, PartialEq, Eq, Debug)]
pub struct ListSize {
    pub picture: PictureSize,
    pub pictures: usize,
    ghost many: { (1 ≤ pictures) × (pictures ≤ 16) },
}

impl PictureSize {
    /// The number of a picture's samples.
    pub fn area(self) -> usize
        ensures value { result ≡ self.height * self.width }
        ensures bounds { (256 ≤ result) × (result ≤ 3686400) }
    {
        self.height * self.width
    }
}

impl ListSize {
    /// The number of the samples of all pictures.
    pub fn area(self) -> usize
        ensures value { result ≡ self.pictures * (self.picture.height * self.picture.width) }
        ensures bounds { (256 ≤ result) × (result ≤ 58982400) }
    {
        self.pictures * self.picture.area()
    }
}
