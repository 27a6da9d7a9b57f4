//! The call that tries one vector, and what calls vet.
ghost use Rattle.std.specs.Prelude.{◌≡◌, ◌^◌, ◌<◌, ◌≤◌, [], ◌∷◌, true, IfErr, pos};
ghost use Rattle.picture.specs.Faults.{Answers, first};
ghost use Rattle.search.specs.Terms.{MayTry, is_inside, terms_of};
ghost use Rattle.search.specs.Calls.{across_rule, down_rule, in_picture, limit_fault, picture_rule, try_fault};
ghost use Rattle.search.specs.Agreed.{Tries};

use crate::searches::Search;
use cost::Candidate;
use measure::Measure;
use picture::{Fault, Layer, Row};
use rate::Vector;
use reference::ReferenceList;
use window::{Stage, contains_across, contains_down};

/// Once so many trials were made, a search takes no call.
const TRIAL_LIMIT: u64 = 1_000_000;

/// Vets the number of a picture.
pub(crate) fn vet_picture<S: Stage>(stage: &S, picture: i64) -> Result<usize, Fault>
    ensures { Answers result (first (picture_rule (S.Stage.window stage.now) picture ∷ [])) (λ r. (pos r ≡ picture) × ((S.Stage.window stage.now).named r ≡ true)) }
{
    let number = usize::try_from(picture)
        .ok()
        .filter(|number| stage.names(*number));
    number.ok_or(Fault {
        row: Row::PictureNumber,
        layer: Layer::Search,
        value: picture,
    })
}

/// Vets that a candidate lies in its picture's window: its horizontal component, then its vertical.
fn vet_inside<S: Stage>(stage: &S, candidate: Candidate) -> Result<(), Fault>
    ensures { Answers result (first (across_rule (S.Stage.window stage.now) candidate ∷ down_rule (S.Stage.window stage.now) candidate ∷ [])) (λ _. is_inside (S.Stage.window stage.now) candidate ≡ true) }
{
    let across = contains_across(stage, candidate);
    Fault::unless(
        across,
        Row::OutsideWindow,
        Layer::Search,
        candidate.vector.x as i64,
    )?;
    let down = contains_down(stage, candidate);
    Fault::unless(
        down,
        Row::OutsideWindow,
        Layer::Search,
        candidate.vector.y as i64,
    )
}

/// Vets the number of trials made so far.
pub(crate) fn vet_limit(trials: u64) -> Result<(), Fault>
    requires { trials ≤ 2 ^ 50 }
    ensures { Answers result (limit_fault trials) (λ _. trials < 1000000) }
{
    Fault::unless(
        trials < TRIAL_LIMIT,
        Row::TrialLimit,
        Layer::Search,
        trials as i64,
    )
}

/// Vets what is tried, in the order of the rows.
fn vet_try<S: Stage>(
    stage: &S,
    trials: u64,
    picture: i64,
    vector: Vector,
) -> Result<Candidate, Fault>
    requires { trials ≤ 2 ^ 50 }
    ensures { Answers result (try_fault (S.Stage.window stage.now) trials picture vector) (λ c. (c ≡ in_picture picture vector) × (MayTry (S.Stage.window stage.now) c) × (trials < 1000000)) }
{
    let picture = vet_picture(stage, picture)?;
    let candidate = Candidate { picture, vector };
    vet_inside(stage, candidate)?;
    vet_limit(trials)?;
    Ok(candidate)
}

impl<L: ReferenceList, M: Measure, S: Stage> Search<L, M, S> {
    /// Tries a vector of a picture, in the stage's unit, and tells whether it is better than the one held.
    // The name says that it can be refused.
    pub fn try_vector(&mut self, picture: i64, vector: Vector) -> Result<bool, Fault>
        ensures tried { Answers result (try_fault (S.Stage.window self.old.stage) self.old.tally.trials picture vector) (Tries (terms_of (S.Stage.window self.old.stage) (S.Stage.setup self.old.stage) (L.meaning self.old.list) (M.cost self.old.measure)) self.old.tally self.new.tally (in_picture picture vector)) }
        ensures refused { IfErr result (λ _. self.new.tally ≡ self.old.tally) }
        ensures same { (self.new.list ≡ self.old.list) × (self.new.measure ≡ self.old.measure) × (self.new.stage ≡ self.old.stage) }
    {
        let candidate = vet_try(&self.stage, self.tally.trials, picture, vector)?;
        Ok(self.enter(candidate))
    }
}
