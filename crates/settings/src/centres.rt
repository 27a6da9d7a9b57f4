//! Centres of search windows.
ghost use Rattle.std.specs.Prelude.{◌≡◌, pos, ◌+ℤ◌};
ghost use Rattle.settings.specs.Centres.{centre_of, centre_in, Floor4};

use rate::Vector;

/// The whole sample nearest to a component of a predicted vector: floor((p + 2) / 4).
pub fn centre(p: i16) -> i16
    ensures value { result ≡ centre_of p }
    ensures floor { Floor4 (p +ℤ pos 2) result }
{
    (p as i32 + 2).div_euclid(4) as i16
}

/// The centre of the window of a predicted vector, in whole samples.
pub fn centre_of(predicted: Vector) -> Vector
    ensures { result ≡ centre_in predicted }
{
    Vector {
        x: centre(predicted.x),
        y: centre(predicted.y),
    }
}
