//! SAD as a call of its own.
ghost use Rattle.std.specs.Prelude.{◌≡◌, ◌≤◌};
ghost use Rattle.measure.specs.Strips.{asked};
ghost use Rattle.measure.specs.Sums.{sad};

use crate::measures::Measure;
use crate::supplied::Sad;

/// The sum of the absolute differences of two strips of one width, and 0 for anything else.
pub fn sad(a: &[u8], b: &[u8]) -> u32
    ensures value { result ≡ asked sad a.now b.now }
    ensures most { result ≤ 16320 }
{
    Sad.price(a, b)
}
