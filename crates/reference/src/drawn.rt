//! A list with no bytes: its samples are drawn by a rule, and its strips are the trait's own.
ghost use Rattle.std.specs.Prelude.{◌≡◌, ◌<◌, pos, ◌*ℤ◌};
ghost use Rattle.reference.specs.Bounds.{Within};
ghost use Rattle.reference.specs.Drawn.{drawn, ruled};

use crate::lists::ReferenceList;
use picture::ListSize;

/// Picture r has (aX + bY + c + r) mod 256 at (X, Y).
#[derive(Clone, Copy)]
pub struct DrawnList {
    pub size: ListSize,
    pub a: u8,
    pub b: u8,
    pub c: u8,
}

/// a times z.
fn scaled(a: u8, z: i16) -> i32
    ensures value { result ≡ pos a *ℤ z }
    ensures small { Within 8388608 result }
{
    i32::from(a) * i32::from(z)
}

impl DrawnList {
    /// The list of a vetted size with that rule.
    pub fn new(size: ListSize, a: u8, b: u8, c: u8) -> Self
        ensures { result ≡ record { size = size; a = a; b = b; c = c } }
    {
        DrawnList { size, a, b, c }
    }

    /// The rule, for a picture that there is.
    fn draw(&self, picture: usize, x: i16, y: i16) -> u8
        requires { picture < 16 }
        ensures { result ≡ ruled self.now picture x y }
    {
        let across = scaled(self.a, x);
        let down = scaled(self.b, y);
        let sum = across + down + i32::from(self.c) + picture as i32;
        sum.rem_euclid(256) as u8
    }
}

impl ReferenceList for DrawnList {
    ghost meaning = { drawn };

    fn len(&self) -> usize {
        self.size.pictures
    }

    fn width(&self) -> usize {
        self.size.picture.width
    }

    fn height(&self) -> usize {
        self.size.picture.height
    }

    fn sample(&self, picture: usize, x: i16, y: i16) -> u8 {
        if picture < self.size.pictures {
            self.draw(picture, x, y)
        } else {
            0
        }
    }
}
