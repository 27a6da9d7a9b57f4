//! The call that tries the offsets of a pattern.
ghost use Rattle.std.specs.Prelude.{◌≡◌, ◌^◌, ◌≤◌, length, IfErr};
ghost use Rattle.picture.specs.Faults.{Answers};
ghost use Rattle.pattern.specs.Offsets.{Within};
ghost use Rattle.search.specs.Terms.{terms_of};
ghost use Rattle.search.specs.Tallies.{tallies};
ghost use Rattle.search.specs.Calls.{around, limit_fault, shifted};
ghost use Rattle.search.specs.Agreed.{Makes, sweep_list};

use crate::searches::Search;
use crate::trying::vet_limit;
use cost::Candidate;
use measure::Measure;
use pattern::Pattern;
use picture::Fault;
use rate::Vector;
use reference::ReferenceList;
use window::Stage;

/// The candidate that lies by an offset from another.
fn shifted(from: Candidate, offset: Vector) -> Candidate
    requires { Within 4416 from.vector × Within 64 offset }
    ensures { result ≡ shifted from offset }
{
    Candidate {
        picture: from.picture,
        vector: from.vector + offset,
    }
}

impl<L: ReferenceList, M: Measure, S: Stage> Search<L, M, S> {
    /// Tries each offset of a pattern from the candidate held at first, as far as the window goes; tells how many those were.
    pub(crate) fn enter_around<P: Pattern>(&mut self, pattern: &P) -> u64
        requires room { self.old.tally.trials ≤ 2 ^ 48 }
        ensures entered { self.new.tally ≡ tallies (terms_of (S.Stage.window self.old.stage) (S.Stage.setup self.old.stage) (L.meaning self.old.list) (M.cost self.old.measure)) self.old.tally (around (S.Stage.window self.old.stage) self.old.tally.held (P.offsets pattern.now)) }
        ensures made { result ≡ length (around (S.Stage.window self.old.stage) self.old.tally.held (P.offsets pattern.now)) }
        ensures same { (self.new.list ≡ self.old.list) × (self.new.measure ≡ self.old.measure) × (self.new.stage ≡ self.old.stage) }
    {
        let from = self.tally.held;
        let before = self.tally.trials;
        for i in 0..pattern.len() {
            self.consider(shifted(from, pattern.offset(i)));
        }
        self.tally.trials - before
    }

    /// Tries each offset of a pattern from the candidate held, as far as the window goes; tells how many those were. What is
    /// held meanwhile does not move the middle.
    pub fn sweep<P: Pattern>(&mut self, pattern: &P) -> Result<u64, Fault>
        ensures swept { Answers result (limit_fault self.old.tally.trials) (Makes (terms_of (S.Stage.window self.old.stage) (S.Stage.setup self.old.stage) (L.meaning self.old.list) (M.cost self.old.measure)) self.old.tally self.new.tally (sweep_list (P.offsets pattern.now))) }
        ensures refused { IfErr result (λ _. self.new.tally ≡ self.old.tally) }
        ensures same { (self.new.list ≡ self.old.list) × (self.new.measure ≡ self.old.measure) × (self.new.stage ≡ self.old.stage) }
    {
        vet_limit(self.tally.trials)?;
        Ok(self.enter_around(pattern))
    }
}
