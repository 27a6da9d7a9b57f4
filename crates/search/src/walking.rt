//! The call that follows a pattern until nothing better is found.
ghost use Rattle.std.specs.Prelude.{◌≡◌, ◌^◌, ◌<◌, ◌≤◌, IfErr};
ghost use Rattle.picture.specs.Faults.{Answers};
ghost use Rattle.search.specs.Terms.{terms_of};
ghost use Rattle.search.specs.Calls.{limit_fault};
ghost use Rattle.search.specs.Walks.{Walks};

use crate::searches::Search;
use crate::trying::vet_limit;
use measure::Measure;
use pattern::Pattern;
use picture::Fault;
use reference::ReferenceList;
use window::Stage;

impl<L: ReferenceList, M: Measure, S: Stage> Search<L, M, S> {
    /// Sweeps until a sweep leaves the held candidate as it was; tells how many sweeps those were. Each but the last lowers
    /// the cost held, so it ends.
    fn enter_walk<P: Pattern>(&mut self, pattern: &P) -> u64
        requires room { self.old.tally.trials < 1000000 }
        ensures walked { Walks (terms_of (S.Stage.window self.old.stage) (S.Stage.setup self.old.stage) (L.meaning self.old.list) (M.cost self.old.measure)) self.old.tally self.new.tally (P.offsets pattern.now) result }
        ensures same { (self.new.list ≡ self.old.list) × (self.new.measure ≡ self.old.measure) × (self.new.stage ≡ self.old.stage) }
    {
        let mut sweeps = 0;
        loop {
            let from = self.tally.held;
            self.enter_around(pattern);
            sweeps += 1;
            if self.tally.held == from {
                break sweeps;
            }
        }
    }

    /// Sweeps until a sweep leaves the held candidate as it was; tells how many sweeps those were.
    pub fn walk<P: Pattern>(&mut self, pattern: &P) -> Result<u64, Fault>
        ensures walked { Answers result (limit_fault self.old.tally.trials) (Walks (terms_of (S.Stage.window self.old.stage) (S.Stage.setup self.old.stage) (L.meaning self.old.list) (M.cost self.old.measure)) self.old.tally self.new.tally (P.offsets pattern.now)) }
        ensures refused { IfErr result (λ _. self.new.tally ≡ self.old.tally) }
        ensures same { (self.new.list ≡ self.old.list) × (self.new.measure ≡ self.old.measure) × (self.new.stage ≡ self.old.stage) }
    {
        vet_limit(self.tally.trials)?;
        Ok(self.enter_walk(pattern))
    }
}
