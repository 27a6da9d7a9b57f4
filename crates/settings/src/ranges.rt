//! Search ranges.
ghost use Rattle.std.specs.Prelude.{◌≡◌, pos};
ghost use Rattle.picture.specs.Faults.{Answers};
ghost use Rattle.settings.specs.Ranges.{Reach, is_reach, range_fault};

use picture::{Fault, Layer, Row};

/// How far from its centre a window reaches, in whole samples.
#[derive(Clone, Copy, PartialEq, Eq, Debug)]
pub struct SearchRange {
    pub value: u8,
    ghost ok: { Reach value },
}

/// Whether a window may reach so far.
// As the test of a picture's size: one call for both would take these three numbers and say no more.
fn is_reach(n: i64) -> bool
    ensures { result ≡ is_reach n }
{
    (4..=64).contains(&n) && n % 4 == 0
}

/// Vets a search range.
impl TryFrom<i64> for SearchRange {
    type Error = Fault;

    ghost try_from_gives = { λ range answer. Answers answer (range_fault range) (λ w. pos w.value ≡ range) };

    fn try_from(range: i64) -> Result<SearchRange, Fault> {
        Fault::unless(is_reach(range), Row::SearchRange, Layer::Settings, range)?;
        Ok(SearchRange { value: range as u8 })
    }
}
