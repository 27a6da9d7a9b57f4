//! Calls one after the other.
ghost use Rattle.std.specs.Prelude.{◌≡◌, ◌+◌, ◌≤◌, length, map};
ghost use Rattle.std.specs.Vec.{vec_capacity, vec_len};
ghost use Rattle.search.specs.Terms.{terms_of};
ghost use Rattle.search.specs.Runs.{Ran, ask_of};

use crate::calls::{Answer, Call, Pairs};
use crate::searches::Search;
use measure::Measure;
use pattern::Pattern;
use picture::Fault;
use reference::ReferenceList;
use window::Stage;

impl<L: ReferenceList, M: Measure, S: Stage> Search<L, M, S> {
    /// Makes calls one after the other, and adds what each answers to a list that has room for all.
    pub(crate) fn run<P: Pattern>(
        &mut self,
        calls: &[Call<Pairs<'_>, P>],
        answers: &mut Vec<Result<Answer, Fault>>,
    )
        requires room { vec_len answers.old + length calls.now ≤ vec_capacity answers.old }
        ensures ran { Ran (terms_of (S.Stage.window self.old.stage) (S.Stage.setup self.old.stage) (L.meaning self.old.list) (M.cost self.old.measure)) self.old.tally self.new.tally (map (ask_of P.offsets) calls.now) answers.old.items answers.new.items }
        ensures added { (vec_len answers.new ≡ vec_len answers.old + length calls.now) × (vec_capacity answers.old ≤ vec_capacity answers.new) }
        ensures same { (self.new.list ≡ self.old.list) × (self.new.measure ≡ self.old.measure) × (self.new.stage ≡ self.old.stage) }
    {
        for call in calls {
            let answer = self.call(call);
            answers.push(answer).unwrap();
        }
    }
}
