//! The two recipes.
ghost use Rattle.std.specs.Prelude.{◌≡◌, ◌+◌, ◌<◌, ◌≤◌, ◌-◌, pos, map, length};
ghost use Rattle.std.specs.List.{range_with_len};
ghost use Rattle.picture.specs.Planes.{grid_of};
ghost use Rattle.pattern.specs.Supplied.{supplied_offsets};
ghost use Rattle.search.specs.Openings.{opening_fault, whole_terms};
ghost use Rattle.search.specs.Runs.{ask_of, full};
ghost use Rattle.search.specs.Recipes.{Begun, Exhausts, Followed, Follows, Refined, centre_ask, eight_ask, fast_asks, full_asks, pattern_ask, pattern_asks, proposal_ask};

use crate::calls::{Call, Pairs};
use crate::opening::Opening;
use crate::reports::Report;
use crate::searches::Search;
use measure::Measure;
use pattern::{Name, Supplied};
use picture::Fault;
use reference::ReferenceList;
use settings::SearchRange;
use window::{Stage, Whole, full_rounds_cover};

/// One of the calls of the fast recipe that follow a pattern, by its place.
fn pattern_call<'a>(range: SearchRange, k: usize) -> Call<Pairs<'a>, Supplied>
    requires { k < 5 }
    ensures { ask_of (λ p. supplied_offsets p.name p.range) result ≡ pattern_ask range.value k }
{
    match k {
        0 => Call::Sweep(Supplied::new(Name::Cross, range)),
        1 => Call::Sweep(Supplied::new(Name::Square, range)),
        2 => Call::Sweep(Supplied::new(Name::Rings, range)),
        3 => Call::Walk(Supplied::new(Name::Hexagon, range)),
        _ => Call::Walk(Supplied::new(Name::Diamond, range)),
    }
}

/// A sweep of the second stage, by its place.
fn eight_call<'a>(range: SearchRange, k: usize) -> Call<Pairs<'a>, Supplied>
    ensures { ask_of (λ p. supplied_offsets p.name p.range) result ≡ eight_ask k }
{
    let name = if k == 0 {
        Name::EightOfTwo
    } else {
        Name::EightOfOne
    };
    Call::Sweep(Supplied::new(name, range))
}

impl<L: ReferenceList, M: Measure> Search<L, M, Whole> {
    /// A full round of each picture.
    fn try_all(&mut self) -> Result<(), Fault>
        ensures followed { Followed (whole_terms self.old.stage.setup (L.meaning self.old.list) (M.cost self.old.measure)) self.old.tally self.new.tally (full_asks self.old.stage.setup) result }
        ensures same { (self.new.list ≡ self.old.list) × (self.new.measure ≡ self.old.measure) × (self.new.stage ≡ self.old.stage) }
    {
        self.follow(
            self.stage.setup.predicted.pictures,
            |r| -> Call<Pairs<'_>, Supplied>
                requires { r < 16 }
                ensures { ask_of (λ p. supplied_offsets p.name p.range) result ≡ full (pos r) }
            { Call::FullRound(r as i64) },
        )
    }

    /// The centre of each picture from 1 on.
    fn try_centres(&mut self) -> Result<(), Fault>
        ensures followed { Followed (whole_terms self.old.stage.setup (L.meaning self.old.list) (M.cost self.old.measure)) self.old.tally self.new.tally (map (centre_ask self.old.stage.setup) (range_with_len 0 (self.old.stage.setup.predicted.pictures - 1))) result }
        ensures same { (self.new.list ≡ self.old.list) × (self.new.measure ≡ self.old.measure) × (self.new.stage ≡ self.old.stage) }
    {
        let stage = self.stage;
        self.follow(
            stage.setup.predicted.pictures - 1,
            |r| -> Call<Pairs<'_>, Supplied>
                requires { r < 16 }
                ensures { ask_of (λ p. supplied_offsets p.name p.range) result ≡ centre_ask stage.setup r }
            { Call::Try(r as i64 + 1, stage.centre(r + 1)) },
        )
    }

    /// The proposals, in each picture.
    fn offer_all(&mut self, proposals: Pairs<'_>) -> Result<(), Fault>
        ensures followed { Followed (whole_terms self.old.stage.setup (L.meaning self.old.list) (M.cost self.old.measure)) self.old.tally self.new.tally (map (proposal_ask proposals.entry.xs.now proposals.entry.ys.now) (range_with_len 0 self.old.stage.setup.predicted.pictures)) result }
        ensures same { (self.new.list ≡ self.old.list) × (self.new.measure ≡ self.old.measure) × (self.new.stage ≡ self.old.stage) }
    {
        self.follow(
            self.stage.setup.predicted.pictures,
            |r| -> Call<Pairs<'_>, Supplied>
                requires { r < 16 }
                ensures { ask_of (λ p. supplied_offsets p.name p.range) result ≡ proposal_ask proposals.entry.xs.now proposals.entry.ys.now r }
            { Call::Offer(r as i64, proposals) },
        )
    }

    /// The patterns of the fast recipe.
    fn try_patterns(&mut self) -> Result<(), Fault>
        ensures followed { Followed (whole_terms self.old.stage.setup (L.meaning self.old.list) (M.cost self.old.measure)) self.old.tally self.new.tally (pattern_asks self.old.stage.setup.range.value) result }
        ensures same { (self.new.list ≡ self.old.list) × (self.new.measure ≡ self.old.measure) × (self.new.stage ≡ self.old.stage) }
    {
        let range = self.stage.setup.range;
        self.follow(
            5,
            |k| -> Call<Pairs<'_>, Supplied>
                requires { k < 5 }
                ensures { ask_of (λ p. supplied_offsets p.name p.range) result ≡ pattern_ask range.value k }
            { pattern_call(range, k) },
        )
    }

    /// The first stage of the fast recipe.
    fn try_likely(&mut self, proposals: Pairs<'_>) -> Result<(), Fault>
        ensures followed { Followed (whole_terms self.old.stage.setup (L.meaning self.old.list) (M.cost self.old.measure)) self.old.tally self.new.tally (fast_asks proposals.entry.xs.now proposals.entry.ys.now self.old.stage.setup) result }
        ensures same { (self.new.list ≡ self.old.list) × (self.new.measure ≡ self.old.measure) × (self.new.stage ≡ self.old.stage) }
    {
        self.try_centres()?;
        self.offer_all(proposals)?;
        self.try_patterns()
    }

    /// Hands the search over, sweeps both eights, and closes it.
    fn refine<N: Measure>(self, measure: N) -> Result<Report, Fault>
    where
        L: Drop,
        M: Drop,
        N: Drop,
        ensures { Refined self.stage.setup (L.meaning self.list) (M.Measure.cost self.measure) (N.Measure.cost measure) self.tally result }
    {
        let range = self.stage.setup.range;
        let mut search = self.hand_over(measure);
        search.follow(
            2,
            |k| -> Call<Pairs<'_>, Supplied>
                ensures { ask_of (λ p. supplied_offsets p.name p.range) result ≡ eight_ask k }
            { eight_call(range, k) },
        )?;
        Ok(search.close())
    }
}

/// The exhaustive recipe: full rounds of all pictures, a handover to the second measure, both eights about what is held.
/// The first refusal ends it and is its answer.
pub fn exhaustive<L, M, N>(opening: Opening<'_, L, M>, measure: N) -> Result<Report, Fault>
where
    L: ReferenceList + Drop,
    M: Measure + Drop,
    N: Measure + Drop,
    ensures { Begun (opening_fault opening.entry.current.size (L.meaning opening.entry.list) opening.entry.request opening.entry.qp opening.entry.range opening.entry.xs.now opening.entry.ys.now) result (Exhausts (grid_of opening.entry.current) (L.meaning opening.entry.list) (M.Measure.cost opening.entry.measure) (N.Measure.cost measure) opening.entry.request opening.entry.qp opening.entry.range opening.entry.xs.now opening.entry.ys.now) }
{
    full_rounds_cover();
    let mut search = Search::open(opening)?;
    search.try_all()?;
    search.refine(measure)
}

/// The fast recipe: the centre of each picture, the proposals in each picture, a cross, a square and rings, walks along
/// a hexagon and a diamond, a handover to the second measure, both eights. The first refusal ends it and is its answer.
pub fn fast<L, M, N>(
    opening: Opening<'_, L, M>,
    measure: N,
    proposals: Pairs<'_>,
) -> Result<Report, Fault>
where
    L: ReferenceList + Drop,
    M: Measure + Drop,
    N: Measure + Drop,
    ensures { Begun (opening_fault opening.entry.current.size (L.meaning opening.entry.list) opening.entry.request opening.entry.qp opening.entry.range opening.entry.xs.now opening.entry.ys.now) result (Follows (grid_of opening.entry.current) (L.meaning opening.entry.list) (M.Measure.cost opening.entry.measure) (N.Measure.cost measure) opening.entry.request opening.entry.qp opening.entry.range opening.entry.xs.now opening.entry.ys.now (fast_asks proposals.entry.xs.now proposals.entry.ys.now)) }
{
    full_rounds_cover();
    let mut search = Search::open(opening)?;
    search.try_likely(proposals)?;
    search.refine(measure)
}
