//! The diamond and the hexagon.
ghost use Rattle.std.specs.Prelude.{refl};
ghost use Rattle.pattern.specs.Patterns.{diamond, hexagon};
ghost use Rattle.std.proofs.Math.Dec.{lit≤};

use crate::tables::Listed;
use rate::Vector;

/// One step to the right, left, down and up.
#[derive(Clone, Copy)]
pub struct Diamond;

impl Listed for Diamond {
    ghost listed = { diamond };

    ghost few = { lit≤ tt };

    ghost short = { refl };

    fn table() -> &'static [Vector] {
        &[
            Vector { x: 1, y: 0 },
            Vector { x: -1, y: 0 },
            Vector { x: 0, y: 1 },
            Vector { x: 0, y: -1 },
        ]
    }
}

/// The corners of a hexagon, two steps away.
#[derive(Clone, Copy)]
pub struct Hexagon;

impl Listed for Hexagon {
    ghost listed = { hexagon };

    ghost few = { lit≤ tt };

    ghost short = { refl };

    fn table() -> &'static [Vector] {
        &[
            Vector { x: 2, y: 0 },
            Vector { x: -2, y: 0 },
            Vector { x: 1, y: 2 },
            Vector { x: 1, y: -2 },
            Vector { x: -1, y: 2 },
            Vector { x: -1, y: -2 },
        ]
    }
}
