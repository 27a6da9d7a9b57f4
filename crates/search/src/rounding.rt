//! The call that tries the whole window of a picture.
ghost use Rattle.std.specs.Prelude.{◌≡◌, ◌^◌, ◌<◌, ◌≤◌, true, length, pos, IfErr, IfOk, unsigned_abs};
ghost use Rattle.picture.specs.Faults.{Answers};
ghost use Rattle.search.specs.Terms.{terms_of};
ghost use Rattle.search.specs.Tallies.{tallies};
ghost use Rattle.search.specs.Calls.{round_fault, rounded};
ghost use Rattle.search.specs.Agreed.{Makes, Searched, round_list};

use crate::searches::Search;
use crate::trying::{vet_limit, vet_picture};
use cost::Candidate;
use measure::Measure;
use picture::Fault;
use reference::ReferenceList;
use window::{Round, Stage};

/// Vets a full round, in the order of the rows, and gives its picture.
fn vet_round<S: Stage>(stage: &S, trials: u64, picture: i64) -> Result<usize, Fault>
    requires { trials ≤ 2 ^ 50 }
    ensures { Answers result (round_fault (S.Stage.window stage.now) trials picture) (λ r. (r ≡ unsigned_abs picture) × ((S.Stage.window stage.now).named r ≡ true) × (trials < 1000000)) }
{
    let picture = vet_picture(stage, picture)?;
    vet_limit(trials)?;
    Ok(picture)
}

impl<L: ReferenceList, M: Measure, S: Stage> Search<L, M, S> {
    /// Tries all of a picture's window, ring by ring from its centre; tells how many vectors those were.
    fn enter_round(&mut self, picture: usize) -> u64
        requires named { (S.Stage.window self.old.stage).named picture ≡ true }
        requires room { self.old.tally.trials ≤ 2 ^ 48 }
        ensures entered { self.new.tally ≡ tallies (terms_of (S.Stage.window self.old.stage) (S.Stage.setup self.old.stage) (L.meaning self.old.list) (M.cost self.old.measure)) self.old.tally (rounded (S.Stage.window self.old.stage) picture) }
        ensures made { result ≡ length (rounded (S.Stage.window self.old.stage) picture) }
        ensures searched { Searched (terms_of (S.Stage.window self.old.stage) (S.Stage.setup self.old.stage) (L.meaning self.old.list) (M.cost self.old.measure)) picture self.new.tally.cost }
        ensures same { (self.new.list ≡ self.old.list) × (self.new.measure ≡ self.old.measure) × (self.new.stage ≡ self.old.stage) }
    {
        let before = self.tally.trials;
        for vector in Round::of(&self.stage, picture) {
            self.enter(Candidate { picture, vector });
        }
        self.tally.trials - before
    }

    /// Tries all of a picture's window, ring by ring from its centre; tells how many vectors those were. Then none in the
    /// window costs less than the one held.
    pub fn full_round(&mut self, picture: i64) -> Result<u64, Fault>
        ensures searched { Answers result (round_fault (S.Stage.window self.old.stage) self.old.tally.trials picture) (Makes (terms_of (S.Stage.window self.old.stage) (S.Stage.setup self.old.stage) (L.meaning self.old.list) (M.cost self.old.measure)) self.old.tally self.new.tally (round_list (unsigned_abs picture))) }
        ensures none_costs_less { IfOk result (λ _. Searched (terms_of (S.Stage.window self.old.stage) (S.Stage.setup self.old.stage) (L.meaning self.old.list) (M.cost self.old.measure)) (unsigned_abs picture) self.new.tally.cost) }
        ensures refused { IfErr result (λ _. self.new.tally ≡ self.old.tally) }
        ensures same { (self.new.list ≡ self.old.list) × (self.new.measure ≡ self.old.measure) × (self.new.stage ≡ self.old.stage) }
    {
        let picture = vet_round(&self.stage, self.tally.trials, picture)?;
        Ok(self.enter_round(picture))
    }
}
