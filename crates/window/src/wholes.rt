//! The first stage, in whole samples.
ghost use Rattle.std.specs.Prelude.{◌≡◌, true, false, MatchOption};
ghost use Rattle.pattern.specs.Offsets.{Within};
ghost use Rattle.window.specs.Stages.{whole_of};
ghost use Rattle.window.specs.Handing.{Handed, is_inside};
ghost use Rattle.window.specs.Windows.{inside};
ghost use Rattle.window.specs.Nearness.{whole_central, whole_priced};
ghost use Rattle.std.proofs.Common.{rules};

use crate::quarters::Quarter;
use crate::stages::Stage;
use crate::windows::contains;
use cost::Candidate;
use rate::Vector;
use settings::{Setup, centre_of};

/// Every picture of the list may be named; its window reaches as far as the search range from its centre.
#[derive(Clone, Copy)]
pub struct Whole {
    pub setup: Setup,
}

impl Whole {
    /// The second stage about a candidate of a window.
    fn about(self, handed: Candidate) -> Quarter
        requires named { (whole_of self.setup).named handed.picture ≡ true }
        requires within { inside (whole_of self.setup) handed.picture handed.vector ≡ true }
        ensures { Handed self.setup handed.picture handed.vector result }
    {
        Quarter {
            setup: self.setup,
            handed: Candidate {
                picture: handed.picture,
                vector: self.quarters(handed.vector),
            },
        }
    }

    /// The second stage, about a candidate; nothing where its picture may not be named or its vector lies outside the picture's window.
    pub fn hand_over(self, candidate: Candidate) -> Option<Quarter>
        ensures { MatchOption result (is_inside self.setup candidate.picture candidate.vector ≡ false) (λ q. (is_inside self.setup candidate.picture candidate.vector ≡ true) × Handed self.setup candidate.picture candidate.vector q) }
    {
        if self.names(candidate.picture) && contains(&self, candidate) {
            Some(self.about(candidate))
        } else {
            None
        }
    }
}

impl Stage for Whole {
    ghost window = { λ s. whole_of s.setup };

    ghost setup = { λ s. s.setup };

    ghost fine = { Prim.search rules };

    ghost narrow = { Prim.search rules };

    ghost central = { λ s r. whole_central s.setup r };

    ghost priced = { λ s c named t. whole_priced s.setup c named t };

    fn setup(&self) -> &Setup {
        &self.setup
    }

    fn names(&self, picture: usize) -> bool {
        picture < self.setup.predicted.pictures
    }

    fn centre(&self, picture: usize) -> Vector {
        self.setup
            .predicted
            .get(picture)
            .map_or(Vector { x: 0, y: 0 }, |predicted| centre_of(predicted))
    }

    fn reach(&self) -> u8 {
        self.setup.range.value
    }

    fn quarters(&self, vector: Vector) -> Vector {
        vector * 4
    }
}
