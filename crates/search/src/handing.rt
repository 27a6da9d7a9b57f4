//! The handover from the first stage to the second.
ghost use Rattle.std.specs.Prelude.{◌≡◌};
ghost use Rattle.window.specs.Handing.{Handed};
ghost use Rattle.window.specs.Stages.{whole_of};
ghost use Rattle.search.specs.Terms.{MayTry};
ghost use Rattle.search.specs.Handovers.{Hands};

use crate::searches::Search;
use crate::tallies::Tally;
use cost::Candidate;
use measure::Measure;
use reference::ReferenceList;
use window::{Quarter, Whole};

/// The second stage about a candidate of the first.
fn second(stage: Whole, held: Candidate) -> Quarter
    requires { MayTry (whole_of stage.setup) held }
    ensures { Handed stage.setup held.picture held.vector result }
{
    stage.hand_over(held).unwrap()
}

impl<L: ReferenceList, M: Measure> Search<L, M, Whole> {
    /// Ends the first stage and tries the candidate held under another measure, all of its strips. From then on vectors are
    /// in quarter samples, within 3 of that one and in its picture.
    pub fn hand_over<N: Measure>(self, measure: N) -> Search<L, N, Quarter>
    where
        M: Drop,
        ensures hands { Hands self.stage.setup (L.meaning self.list) (M.Measure.cost self.measure) (N.Measure.cost measure) self.tally result.tally result.stage }
        ensures kept { (result.list ≡ self.list) × (result.measure ≡ measure) }
    {
        let before = self.tally;
        let stage = second(self.stage, before.held);
        let tally = Tally::first(
            &self.list,
            &measure,
            &stage,
            stage.handed,
            before.trials,
            before.strips,
        );
        Search {
            list: self.list,
            measure,
            stage,
            tally,
        }
    }
}
