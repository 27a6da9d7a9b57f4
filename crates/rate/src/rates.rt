//! The rate of a vector: what it takes to send, in bits.
ghost use Rattle.std.specs.Prelude.{◌≡◌, ◌≤◌, ◌-ℤ◌, IfSome};
ghost use Rattle.rate.specs.Lengths.{difference_length};
ghost use Rattle.rate.specs.Rates.{number_length, vector_rate};

use crate::lengths::{code_length, picture_length};
use crate::vectors::Vector;

/// The length of the code of a - b, where the table has it.
fn gap_length(a: i16, b: i16) -> Option<u8>
    ensures value { result ≡ difference_length (a -ℤ b) }
    ensures most { IfSome result (λ bits. bits ≤ 19) }
{
    code_length(a.checked_sub(b)?)
}

/// The bits of a picture's number, where the list has it.
fn number_length(picture: usize, pictures: usize) -> Option<u8>
    ensures value { result ≡ number_length picture pictures }
    ensures most { IfSome result (λ bits. bits ≤ 9) }
{
    if picture >= pictures || pictures > 16 {
        return None;
    }
    if pictures == 1 {
        return Some(0);
    }
    Some(picture_length(picture))
}

/// The rate of a vector in a picture of a list, where this one is predicted: in bits, 47 at most.
pub fn vector_rate(vector: Vector, predicted: Vector, picture: usize, pictures: usize) -> Option<u8>
    ensures value { result ≡ vector_rate (vector.x -ℤ predicted.x) (vector.y -ℤ predicted.y) picture pictures }
    ensures most { IfSome result (λ bits. bits ≤ 47) }
{
    let across = gap_length(vector.x, predicted.x)?;
    let down = gap_length(vector.y, predicted.y)?;
    let number = number_length(picture, pictures)?;
    Some(across + down + number)
}
