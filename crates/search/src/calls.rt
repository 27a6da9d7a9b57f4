//! Calls and their answers as values.
ghost use Rattle.search.specs.Runs.{Called, ask_of};
ghost use Rattle.search.specs.Terms.{terms_of};
ghost use Rattle.std.specs.Prelude.{◌≡◌};

use crate::searches::Search;
use measure::Measure;
use pattern::Pattern;
use picture::Fault;
use rate::Vector;
use reference::ReferenceList;
use window::Stage;

/// Vectors that are lent to an offer: horizontals and verticals in two arrays.
#[derive(Clone, Copy)]
pub struct Pairs<'a> {
    pub xs: &'a [i16],
    pub ys: &'a [i16],
}

/// A call of a search, with what it is lent: the vectors of an offer, `Pairs`, and a pattern. Vectors are in the unit of the stage.
// What is lent is a type parameter: an enum that holds references itself could not have a pattern with a ghost field.
#[derive(Clone, Copy, Drop)]
pub enum Call<V, P> {
    Try(i64, Vector),
    Offer(i64, V),
    Sweep(P),
    Walk(P),
    FullRound(i64),
}

/// What an accepted call answers: whether a vector is better, or how many trials or sweeps were made.
#[derive(Clone, Copy, PartialEq, Eq, Debug)]
pub enum Answer {
    Better(bool),
    Trials(u64),
    Sweeps(u64),
}

impl<L: ReferenceList, M: Measure, S: Stage> Search<L, M, S> {
    /// Makes a call that is given as a value.
    pub fn call<P: Pattern>(&mut self, call: &Call<Pairs<'_>, P>) -> Result<Answer, Fault>
        ensures called { Called (terms_of (S.Stage.window self.old.stage) (S.Stage.setup self.old.stage) (L.meaning self.old.list) (M.cost self.old.measure)) self.old.tally self.new.tally (ask_of P.offsets call.now) result }
        ensures same { (self.new.list ≡ self.old.list) × (self.new.measure ≡ self.old.measure) × (self.new.stage ≡ self.old.stage) }
    {
        match call {
            Call::Try(picture, vector) => Ok(Answer::Better(self.try_vector(*picture, *vector)?)),
            Call::Offer(picture, pairs) => {
                Ok(Answer::Trials(self.offer(*picture, pairs.xs, pairs.ys)?))
            }
            Call::Sweep(pattern) => Ok(Answer::Trials(self.sweep(pattern)?)),
            Call::Walk(pattern) => Ok(Answer::Sweeps(self.walk(pattern)?)),
            Call::FullRound(picture) => Ok(Answer::Trials(self.full_round(*picture)?)),
        }
    }
}
