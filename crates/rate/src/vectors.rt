//! Motion vectors, their sums and multiples.
ghost use Rattle.std.specs.Prelude.{◌≡◌, ◌+ℤ◌, ◌*ℤ◌, FitsSigned};
ghost use Rattle.std.specs.Int.{w16};
ghost use Rattle.rate.specs.Vectors.{Fits, sum_of, multiple_of};

use std::ops::{Add, Mul};

/// A vector, in quarter samples unless said otherwise.
#[derive(Clone, Copy, PartialEq, Eq, Debug, Default)]
pub struct Vector {
    pub x: i16,
    pub y: i16,
}

/// The sum of two vectors, where it is one.
impl Add for Vector {
    type Output = Vector;

    ghost can_add = { λ v w. Fits (sum_of v w) };

    ghost add_gives = { λ v w r. r ≡ sum_of v w };

    fn add(self, other: Vector) -> Vector {
        Vector {
            x: self.x + other.x,
            y: self.y + other.y,
        }
    }
}

/// A multiple of a vector, where it is one.
impl Mul<i16> for Vector {
    type Output = Vector;

    ghost can_mul = { λ v k. Fits (multiple_of v k) };

    ghost mul_gives = { λ v k r. r ≡ multiple_of v k };

    fn mul(self, k: i16) -> Vector {
        Vector {
            x: k * self.x,
            y: k * self.y,
        }
    }
}
