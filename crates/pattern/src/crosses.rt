//! The cross of a search range.
ghost use Rattle.std.specs.Prelude.{◌≡◌, ◌+◌, ◌/◌, ◌%◌, ◌<◌, pos, slice_index_or};
ghost use Rattle.picture.specs.Faults.{Answers};
ghost use Rattle.settings.specs.Ranges.{range_fault};
ghost use Rattle.pattern.specs.Patterns.{cross, oddly};
ghost use Rattle.pattern.specs.Arms.{cross_few, cross_short};

use crate::offsets::STILL;
use crate::patterns::Pattern;
use picture::Fault;
use rate::Vector;
use settings::SearchRange;

/// Odd steps to both sides of a level line, then of an upright one half as long.
#[derive(Clone, Copy)]
pub struct Cross {
    pub range: SearchRange,
}

/// The cross of a range, which is vetted.
// As the rings': one line, of which the type is all that differs.
impl TryFrom<i64> for Cross {
    type Error = Fault;

    ghost try_from_gives = { λ range answer. Answers answer (range_fault range) (λ c. pos c.range.value ≡ range) };

    fn try_from(range: i64) -> Result<Cross, Fault> {
        SearchRange::try_from(range).map(|range| Cross { range })
    }
}

/// The component at an index of a line: 1, -1, 3, -3 and so on.
fn along_line(i: usize) -> i16
    requires { i < 64 }
    ensures { result ≡ slice_index_or (oddly (1 + i / 2)) (i % 2) (pos 0) }
{
    let far = 2 * (i / 2) as i16 + 1;
    if i % 2 == 0 { far } else { -far }
}

impl Pattern for Cross {
    ghost offsets = { λ c. cross c.range.value };

    ghost few = { λ p. cross_few p.range.value p.range.ok };

    ghost short = { λ p k. cross_short p.range.value k p.range.ok };

    #[tactic(auto, using(crate::specs::Arms::length_cross))]
    fn len(&self) -> usize {
        let across = self.range.value as usize;
        across + across / 2
    }

    #[tactic(auto, using(crate::specs::Arms::length_cross))]
    fn offset(&self, i: usize) -> Vector {
        let across = self.range.value as usize;
        if i < across {
            Vector {
                x: along_line(i),
                ..STILL
            }
        } else if i < self.len() {
            Vector {
                y: along_line(i - across),
                ..STILL
            }
        } else {
            STILL
        }
    }
}
