//! One trial of a search.
ghost use Rattle.std.specs.Prelude.{◌≡◌, ◌+◌, ◌^◌, ◌≤◌, nat_lt};
ghost use Rattle.cost.specs.Prices.{Tried, total_of};
ghost use Rattle.cost.specs.Strips.{parts_of};
ghost use Rattle.window.specs.Windows.{quartered};
ghost use Rattle.search.specs.Terms.{MayTry, price, terms_of};
ghost use Rattle.search.specs.Tallies.{begun, tallied};

use crate::searches::Search;
use crate::tallies::Tally;
use cost::{Candidate, Pricing, Trial};
use measure::Measure;
use reference::ReferenceList;
use window::Stage;

/// A candidate of a stage in quarter samples.
pub(crate) fn quartered<S: Stage>(stage: &S, candidate: Candidate) -> Candidate
    requires { MayTry (S.Stage.window stage.now) candidate }
    ensures { result ≡ quartered (S.Stage.window stage.now) candidate }
{
    Candidate {
        picture: candidate.picture,
        vector: stage.quarters(candidate.vector),
    }
}

/// The trial of a candidate of a stage under a bound.
pub(crate) fn trial<L: ReferenceList, M: Measure, S: Stage>(
    list: &L,
    measure: &M,
    stage: &S,
    candidate: Candidate,
    bound: u32,
) -> Trial
    requires { MayTry (S.Stage.window stage.now) candidate }
    ensures tried { Tried (parts_of (S.Stage.setup stage.now) (L.meaning list.now) (M.cost measure.now) (quartered (S.Stage.window stage.now) candidate)) bound result }
    ensures most { total_of result.cost ≤ 16650321 }
{
    let pricing = Pricing {
        setup: stage.setup(),
        list,
        measure,
    };
    pricing
        .try_under(quartered(stage, candidate), bound)
        .unwrap()
}

/// The total that a trial came to.
fn total(trial: Trial) -> u32
    ensures { result ≡ total_of trial.cost }
{
    match trial.cost {
        Ok(total) | Err(total) => total,
    }
}

impl Tally {
    /// The tally of a stage that begins with a candidate, after so many trials and strips: nothing bounds its trial.
    pub(crate) fn first<L: ReferenceList, M: Measure, S: Stage>(
        list: &L,
        measure: &M,
        stage: &S,
        held: Candidate,
        trials: u64,
        strips: u64,
    ) -> Tally
        requires may { MayTry (S.Stage.window stage.now) held }
        requires room { (trials ≤ 2 ^ 50) × (strips ≤ 2 ^ 60) }
        ensures first { result ≡ begun (terms_of (S.Stage.window stage.now) (S.Stage.setup stage.now) (L.meaning list.now) (M.cost measure.now)) held trials strips }
        ensures few { result.strips ≤ strips + 4 }
        ensures low { result.cost ≤ 16650321 }
    {
        let trial = trial(list, measure, stage, held, u32::MAX);
        Tally {
            held,
            cost: total(trial),
            trials: trials + 1,
            strips: strips + trial.strips as u64,
        }
    }
}

impl<L: ReferenceList, M: Measure, S: Stage> Search<L, M, S> {
    /// Tries a candidate of the stage under the cost held, and tells whether it is better.
    pub(crate) fn enter(&mut self, candidate: Candidate) -> bool
        requires may { MayTry (S.Stage.window self.old.stage) candidate }
        requires room { self.old.tally.trials ≤ 2 ^ 49 }
        ensures entered { self.new.tally ≡ tallied (terms_of (S.Stage.window self.old.stage) (S.Stage.setup self.old.stage) (L.meaning self.old.list) (M.cost self.old.measure)) self.old.tally candidate }
        ensures better { result ≡ nat_lt (price (terms_of (S.Stage.window self.old.stage) (S.Stage.setup self.old.stage) (L.meaning self.old.list) (M.cost self.old.measure)) candidate) self.old.tally.cost }
        ensures same { (self.new.list ≡ self.old.list) × (self.new.measure ≡ self.old.measure) × (self.new.stage ≡ self.old.stage) }
    {
        let trial = trial(
            &self.list,
            &self.measure,
            &self.stage,
            candidate,
            self.tally.cost,
        );
        self.tally.trials += 1;
        self.tally.strips += trial.strips as u64;
        let Ok(cost) = trial.cost else {
            return false;
        };
        self.tally.held = candidate;
        self.tally.cost = cost;
        true
    }
}
