//! Positions in quarter samples.
ghost use Rattle.std.specs.Prelude.{◌≡◌, pos};
ghost use Rattle.std.specs.Int.{int_div_euclid};
ghost use Rattle.reference.specs.Bounds.{Within};
ghost use Rattle.reference.specs.Interpolation.{place_of};
ghost use Rattle.reference.specs.Parts.{place};

use crate::parts::Fraction;

/// The cell that a position lies in, by its whole sample, and how far the position lies past that sample.
#[derive(Clone, Copy)]
pub(crate) struct Position {
    pub column: i16,
    pub row: i16,
    pub across: Fraction,
    pub down: Fraction,
    ghost near: { Within 8191 column × Within 8191 row },
}

impl Position {
    /// Where (`x`, `y`) in quarter samples lies.
    pub(crate) fn of(x: i16, y: i16) -> Position
        ensures column { result.column ≡ int_div_euclid x (pos 4) }
        ensures row { result.row ≡ int_div_euclid y (pos 4) }
        ensures place { place result.across result.down ≡ place_of x y }
    {
        Position {
            column: x.div_euclid(4),
            row: y.div_euclid(4),
            across: Fraction::from(x),
            down: Fraction::from(y),
        }
    }
}
