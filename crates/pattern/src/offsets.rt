//! Offsets and their multiples.
ghost use Rattle.std.specs.Prelude.{◌≡◌};
ghost use Rattle.pattern.specs.Offsets.{times, Within};

use rate::Vector;

/// The offset that moves nothing.
pub(crate) const STILL: Vector = Vector { x: 0, y: 0 };

/// `k` times an offset, which stays small.
pub(crate) fn stretched(k: u8, offset: Vector) -> Vector
    requires { Within 4355 (times k offset) }
    ensures { result ≡ times k offset }
{
    offset * k as i16
}
