//! Calls up to the first that is refused.
ghost use Rattle.std.specs.Prelude.{◌≡◌, ℕ, ◌<◌, map};
ghost use Rattle.std.specs.List.{range_with_len};
ghost use Rattle.search.specs.Terms.{terms_of};
ghost use Rattle.search.specs.Runs.{Ask, ask_of};
ghost use Rattle.search.specs.Recipes.{Followed};

use crate::calls::{Call, Pairs};
use crate::searches::Search;
use measure::Measure;
use pattern::Pattern;
use picture::Fault;
use reference::ReferenceList;
use window::Stage;

impl<L: ReferenceList, M: Measure, S: Stage> Search<L, M, S> {
    /// Makes so many calls, one after the other, up to the first that is refused.
    pub(crate) fn follow<'a, P: Pattern + Drop, F: Fn(usize) -> Call<Pairs<'a>, P>>(
        &mut self,
        count: usize,
        at: F,
    ) -> Result<(), Fault>
        requires callable { (k : ℕ) → k < count → F.pre at k }
        ensures followed { (ask : ℕ → Ask) → ((k : ℕ) (c : _) → k < count → F.post at k c → ask_of P.offsets c ≡ ask k) → Followed (terms_of (S.Stage.window self.old.stage) (S.Stage.setup self.old.stage) (L.meaning self.old.list) (M.cost self.old.measure)) self.old.tally self.new.tally (map ask (range_with_len 0 count)) result }
        ensures same { (self.new.list ≡ self.old.list) × (self.new.measure ≡ self.old.measure) × (self.new.stage ≡ self.old.stage) }
    {
        for k in 0..count {
            self.call(&at(k))?;
        }
        Ok(())
    }
}
