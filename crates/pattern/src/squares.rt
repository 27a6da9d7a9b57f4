//! The square, and the eights: the border of a square.
ghost use Rattle.std.specs.Prelude.{◌≡◌, refl};
ghost use Rattle.pattern.specs.Patterns.{distance_of, eight, square};
ghost use Rattle.std.proofs.Math.Dec.{lit≤};
ghost use Rattle.pattern.specs.Arms.{eight_few, eight_short};

use crate::offsets::stretched;
use crate::patterns::Pattern;
use crate::tables::Listed;
use rate::Vector;

/// Both components from -2 to 2, (0, 0) among them.
#[derive(Clone, Copy)]
pub struct Square;

impl Listed for Square {
    ghost listed = { square };

    ghost few = { unfold square in lit≤ tt };

    ghost short = { unfold square in refl };

    #[tactic(auto, unfolding(crate::specs::Patterns::square))]
    fn table() -> &'static [Vector] {
        &[
            Vector { x: -2, y: -2 },
            Vector { x: -1, y: -2 },
            Vector { x: 0, y: -2 },
            Vector { x: 1, y: -2 },
            Vector { x: 2, y: -2 },
            Vector { x: -2, y: -1 },
            Vector { x: -1, y: -1 },
            Vector { x: 0, y: -1 },
            Vector { x: 1, y: -1 },
            Vector { x: 2, y: -1 },
            Vector { x: -2, y: 0 },
            Vector { x: -1, y: 0 },
            Vector { x: 0, y: 0 },
            Vector { x: 1, y: 0 },
            Vector { x: 2, y: 0 },
            Vector { x: -2, y: 1 },
            Vector { x: -1, y: 1 },
            Vector { x: 0, y: 1 },
            Vector { x: 1, y: 1 },
            Vector { x: 2, y: 1 },
            Vector { x: -2, y: 2 },
            Vector { x: -1, y: 2 },
            Vector { x: 0, y: 2 },
            Vector { x: 1, y: 2 },
            Vector { x: 2, y: 2 },
        ]
    }
}

/// The eight offsets round (0, 0) at a distance of 1 or 2.
#[derive(Clone, Copy)]
pub enum Eight {
    One,
    Two,
}

/// The eight of distance 1, which both are multiples of.
struct Nearest;

impl Listed for Nearest {
    ghost listed = { eight 1 };

    ghost few = { unfold eight in lit≤ tt };

    ghost short = { unfold eight in refl };

    #[tactic(auto, unfolding(crate::specs::Patterns::eight))]
    fn table() -> &'static [Vector] {
        &[
            Vector { x: -1, y: -1 },
            Vector { x: 0, y: -1 },
            Vector { x: 1, y: -1 },
            Vector { x: -1, y: 0 },
            Vector { x: 1, y: 0 },
            Vector { x: -1, y: 1 },
            Vector { x: 0, y: 1 },
            Vector { x: 1, y: 1 },
        ]
    }
}

impl Eight {
    /// How far its offsets are from (0, 0).
    fn distance(self) -> u8
        ensures { result ≡ distance_of self }
    {
        // Told here, and not by the numbers of the variants: those are what a caller's cast gives.
        match self {
            Eight::One => 1,
            Eight::Two => 2,
        }
    }
}

impl Pattern for Eight {
    ghost offsets = { λ e. eight (distance_of e) };

    ghost few = { eight_few };

    ghost short = { eight_short };

    fn len(&self) -> usize {
        Nearest.len()
    }

    fn offset(&self, i: usize) -> Vector {
        stretched(self.distance(), Nearest.offset(i))
    }
}
