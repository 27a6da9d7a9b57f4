//! The second stage, in quarter samples.
ghost use Rattle.std.specs.Prelude.{◌<◌};
ghost use Rattle.std.proofs.Common.{rules};
ghost use Rattle.cost.specs.Rating.{predicted_in};
ghost use Rattle.pattern.specs.Offsets.{Within};
ghost use Rattle.window.specs.Stages.{quarter};
ghost use Rattle.window.specs.Windows.{Apart};
ghost use Rattle.window.specs.Nearness.{quarter_priced};

use crate::stages::Stage;
use cost::Candidate;
use rate::Vector;
use settings::Setup;

/// Only the picture that was handed over may be named; its window reaches 3 from the handed vector, whatever is held later.
#[derive(Clone, Copy)]
pub struct Quarter {
    pub setup: Setup,
    pub handed: Candidate,
    ghost listed: { handed.picture < setup.predicted.pictures },
    ghost near: { Within 4352 handed.vector },
    ghost tabled: { Apart 258 handed.vector (predicted_in setup handed.picture) },
}

impl Stage for Quarter {
    ghost window = { λ s. quarter s.handed.picture s.handed.vector };

    ghost setup = { λ s. s.setup };

    ghost fine = { Prim.search rules };

    ghost narrow = { Prim.search rules };

    ghost central = { λ s r. s.near };

    ghost priced = { λ s c named t.
        quarter_priced s.setup s.handed.picture s.handed.vector c s.listed s.near s.tabled named t };

    // A trait has no fields: each stage lends its own.
    fn setup(&self) -> &Setup {
        &self.setup
    }

    fn names(&self, picture: usize) -> bool {
        picture == self.handed.picture
    }

    fn centre(&self, _picture: usize) -> Vector {
        self.handed.vector
    }

    fn reach(&self) -> u8 {
        3
    }

    fn quarters(&self, vector: Vector) -> Vector {
        vector
    }
}
