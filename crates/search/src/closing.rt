//! What a search shows, and its end.
ghost use Rattle.search.specs.Terms.{terms_of};
ghost use Rattle.search.specs.Agreed.{Reports};

use crate::reports::Report;
use crate::searches::Search;
use measure::Measure;
use reference::ReferenceList;
use window::Stage;

impl<L: ReferenceList, M: Measure, S: Stage> Search<L, M, S> {
    /// The report so far: all that a search shows of itself.
    pub fn report(&self) -> Report
        ensures { Reports (terms_of (S.Stage.window self.now.stage) (S.Stage.setup self.now.stage) (L.meaning self.now.list) (M.cost self.now.measure)) self.now.tally result }
    {
        Report {
            picture: self.tally.held.picture,
            vector: self.stage.quarters(self.tally.held.vector),
            cost: self.tally.cost,
            trials: self.tally.trials,
            strips: self.tally.strips,
        }
    }

    /// Ends the search, with its report.
    pub fn close(self) -> Report
    where
        L: Drop,
        M: Drop,
        S: Drop,
        ensures { Reports (terms_of (S.Stage.window self.stage) (S.Stage.setup self.stage) (L.meaning self.list) (M.cost self.measure)) self.tally result }
    {
        self.report()
    }
}
