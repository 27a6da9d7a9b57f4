//! The corners of a square.
ghost use Rattle.std.specs.Prelude.{◌≡◌, MatchOption};
ghost use Rattle.std.proofs.Math.Dec.{lit≤};
ghost use Rattle.buyer.specs.Corners.{IsDistance, corners};
ghost use Rattle.buyer.specs.Laws.{corners_short};

use pattern::Pattern;
use rate::Vector;

/// The corners of a square about (0, 0): each component as far from 0 as `distance`.
#[derive(Clone, Copy)]
pub struct Corners {
    pub distance: u8,
    ghost near: { IsDistance distance },
}

impl Corners {
    /// The corners at a distance from 1 to 64; nothing for any other.
    pub fn new(distance: u8) -> Option<Corners>
        ensures { MatchOption result (IsDistance distance → ⊥) (λ c. c.distance ≡ distance) }
    {
        if (1..=64).contains(&distance) {
            Some(Corners { distance })
        } else {
            None
        }
    }
}

impl Pattern for Corners {
    ghost offsets = { λ c. corners c.distance };

    ghost few = { λ c. lit≤ tt };

    ghost short = { λ c k. corners_short c.distance k c.near };

    fn len(&self) -> usize {
        4
    }

    fn offset(&self, i: usize) -> Vector {
        let far = i16::from(self.distance);
        match i {
            0 => Vector { x: -far, y: -far },
            1 => Vector { x: far, y: -far },
            2 => Vector { x: -far, y: far },
            3 => Vector { x: far, y: far },
            _ => Vector { x: 0, y: 0 },
        }
    }
}
