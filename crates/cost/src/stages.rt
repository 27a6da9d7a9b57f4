//! Candidates of the whole-sample stage.
ghost use Rattle.std.specs.Prelude.{◌≡◌};
ghost use Rattle.cost.specs.Candidates.{whole_candidate};
ghost use Rattle.cost.specs.Centres.{centre_candidate};

use crate::candidates::Candidate;
use rate::Vector;
use settings::{Setup, centre_of};

impl Candidate {
    /// The candidate of a whole-sample vector; nothing where four times the vector is none of 16 bits.
    pub fn whole(picture: usize, vector: Vector) -> Option<Candidate>
        ensures { result ≡ whole_candidate picture vector }
    {
        // By component: `*` asks that the multiple be a vector, and here it need not be one.
        let vector = Vector {
            x: vector.x.checked_mul(4)?,
            y: vector.y.checked_mul(4)?,
        };
        Some(Candidate { picture, vector })
    }

    /// The centre of a picture's window; nothing for a picture that has no predicted vector.
    pub fn centre(setup: &Setup, picture: usize) -> Option<Candidate>
        ensures { result ≡ centre_candidate setup.now picture }
    {
        Candidate::whole(picture, centre_of(setup.predicted.get(picture)?))
    }
}
