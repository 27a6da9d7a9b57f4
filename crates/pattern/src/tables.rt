//! Patterns that stand in a table.
ghost use Rattle.std.specs.Prelude.{◌≡◌, ◌≤◌, IsTrue, List, length};
ghost use Rattle.std.specs.List.{list_all};
ghost use Rattle.rate.specs.declared.vectors.Vector.{Vector as Offset};
ghost use Rattle.pattern.specs.Shorts.{is_within, each_within};

use crate::offsets::STILL;
use crate::patterns::Pattern;
use rate::Vector;

/// A pattern whose offsets stand in a table, which is all that it gives.
pub trait Listed {
    /// The offsets, in the order in which they are tried.
    ghost listed: { List Offset };

    /// The table of the offsets.
    fn table() -> &'static [Vector]
        ensures { result.now ≡ listed };

    /// There are 1,024 offsets at most.
    ghost few: { length listed ≤ 1024 };

    /// Every component is from -64 to 64.
    ghost short: { IsTrue (list_all (is_within 64) listed) };
}

impl<L: Listed> Pattern for L {
    ghost offsets = { λ _. L.listed };

    ghost few = { λ _. L.few };

    ghost short = { λ _ k. each_within 64 L.listed L.short k };

    fn len(&self) -> usize {
        L::table().len()
    }

    fn offset(&self, i: usize) -> Vector {
        L::table().get(i).copied().unwrap_or(STILL)
    }
}
