//! The rings of a search range.
ghost use Rattle.std.specs.Prelude.{◌≡◌, pos, refl};
ghost use Rattle.picture.specs.Faults.{Answers};
ghost use Rattle.settings.specs.Ranges.{range_fault};
ghost use Rattle.pattern.specs.Patterns.{rings, sixteen};
ghost use Rattle.std.proofs.Math.Dec.{lit≤};
ghost use Rattle.pattern.specs.Arms.{rings_few, rings_short};

use crate::offsets::{STILL, stretched};
use crate::patterns::Pattern;
use crate::tables::Listed;
use picture::Fault;
use rate::Vector;
use settings::SearchRange;

/// Sixteen points about (0, 0), and their multiples.
#[derive(Clone, Copy)]
pub struct Rings {
    pub range: SearchRange,
}

/// The rings of a range, which is vetted.
impl TryFrom<i64> for Rings {
    type Error = Fault;

    ghost try_from_gives = { λ range answer. Answers answer (range_fault range) (λ p. pos p.range.value ≡ range) };

    fn try_from(range: i64) -> Result<Rings, Fault> {
        SearchRange::try_from(range).map(|range| Rings { range })
    }
}

/// The points of ring 1, which the others are multiples of.
struct RingOne;

impl Listed for RingOne {
    ghost listed = { sixteen };

    ghost few = { unfold sixteen in lit≤ tt };

    ghost short = { unfold sixteen in refl };

    #[tactic(auto, unfolding(crate::specs::Patterns::sixteen))]
    fn table() -> &'static [Vector] {
        &[
            Vector { x: 4, y: 2 },
            Vector { x: 4, y: -2 },
            Vector { x: -4, y: 2 },
            Vector { x: -4, y: -2 },
            Vector { x: 4, y: 1 },
            Vector { x: 4, y: -1 },
            Vector { x: -4, y: 1 },
            Vector { x: -4, y: -1 },
            Vector { x: 4, y: 0 },
            Vector { x: -4, y: 0 },
            Vector { x: 2, y: 3 },
            Vector { x: 2, y: -3 },
            Vector { x: -2, y: 3 },
            Vector { x: -2, y: -3 },
            Vector { x: 0, y: 4 },
            Vector { x: 0, y: -4 },
        ]
    }
}

impl Pattern for Rings {
    ghost offsets = { λ p. rings p.range.value };

    ghost few = { λ p. rings_few p.range.value p.range.ok };

    ghost short = { λ p k. rings_short p.range.value k p.range.ok };

    #[tactic(auto, using(crate::specs::Arms::length_rings))]
    fn len(&self) -> usize {
        4 * self.range.value as usize
    }

    #[tactic(auto, using(crate::specs::Arms::length_rings))]
    fn offset(&self, i: usize) -> Vector {
        if i < self.len() {
            stretched(1 + (i / 16) as u8, RingOne.offset(i % 16))
        } else {
            STILL
        }
    }
}
