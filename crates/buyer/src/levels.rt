//! A list with no picture bytes: each picture is of one brightness.
ghost use Rattle.std.specs.Prelude.{◌≡◌, ℕ, ◌<◌, ◌≤◌, length, pos, slice_index};
ghost use Rattle.picture.specs.Faults.{Answers};
ghost use Rattle.picture.specs.Vetting.{count_fault};

use picture::{Fault, PictureSize, vet_count};
use reference::ReferenceList;

/// One lent byte a picture: every sample of picture r is `levels[r]`.
#[derive(Clone, Copy)]
pub struct Levels<'a> {
    pub size: PictureSize,
    pub levels: &'a [u8],
    ghost many: { (1 ≤ length levels.now) × (length levels.now ≤ 16) },
    ghost bytes: { (k : ℕ) → slice_index levels.now k < 256 },
}

impl<'a> Levels<'a> {
    /// The list of these levels, if it has 1 to 16.
    pub fn new(size: PictureSize, levels: &'a [u8]) -> Result<Levels<'a>, Fault>
        ensures { Answers result (count_fault (pos (length levels.now))) (λ list. (list.size ≡ size) × (list.levels.now ≡ levels.now)) }
    {
        vet_count(levels.len() as i64)?;
        Ok(Levels { size, levels })
    }
}

impl ReferenceList for Levels<'_> {
    ghost use Rattle.buyer.specs.Levels.{level_meaning};

    ghost meaning = { level_meaning };

    fn len(&self) -> usize {
        self.levels.len()
    }

    fn width(&self) -> usize {
        self.size.width
    }

    fn height(&self) -> usize {
        self.size.height
    }

    fn sample(&self, picture: usize, _x: i16, _y: i16) -> u8 {
        self.levels.get(picture).copied().unwrap_or(0)
    }
}
