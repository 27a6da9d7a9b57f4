//! A whole run: the opening, calls of the first stage, a handover or none, calls of the second, and the end.
ghost use Rattle.picture.specs.Planes.{grid_of};
ghost use Rattle.std.specs.Prelude.{◌≡◌, ◌+◌, ◌≤◌, length, map};
ghost use Rattle.search.specs.declared.replaying.ReplayError.TheVariants.{OutOfMemory, Refused};
ghost use Rattle.std.specs.Vec.{vec_capacity, vec_len};
ghost use Rattle.search.specs.Openings.{opening_fault};
ghost use Rattle.search.specs.Runs.{ask_of};
ghost use Rattle.search.specs.Replays.{Finished, Replayed, Told, calls_in, second_of};

use crate::calls::{Answer, Call, Pairs};
use crate::opening::Opening;
use crate::reports::Report;
use crate::searches::Search;
use measure::Measure;
use pattern::Pattern;
use picture::Fault;
use reference::ReferenceList;
use std::alloc::{AllocError, Global};
use window::{Whole, full_rounds_cover};

/// The second stage of a run: the measure that it is handed over to, and its calls.
#[derive(Drop)]
pub struct SecondStage<'a, N, P> {
    pub measure: N,
    pub calls: &'a [Call<Pairs<'a>, P>],
}

/// What a run told: what each call answered, in order, and the report.
#[derive(Drop)]
pub struct Outcome {
    pub answers: Vec<Result<Answer, Fault>>,
    pub report: Report,
}

/// Why there was no run: no memory for the answers, so that nothing was tried, or a refusal of the opening.
#[derive(Clone, Copy, PartialEq, Eq, Debug)]
pub enum ReplayError {
    OutOfMemory,
    Refused(Fault),
}

impl From<AllocError> for ReplayError {
    ghost from_gives = { λ _ e. e ≡ OutOfMemory };

    fn from(_error: AllocError) -> ReplayError {
        ReplayError::OutOfMemory
    }
}

impl From<Fault> for ReplayError {
    ghost from_gives = { λ f e. e ≡ Refused f };

    fn from(fault: Fault) -> ReplayError {
        ReplayError::Refused(fault)
    }
}

/// Hands a search over, makes the calls of the second stage, and closes the search.
fn finish<L, M, N, P>(
    search: Search<L, M, Whole>,
    second: SecondStage<'_, N, P>,
    answers: &mut Vec<Result<Answer, Fault>>,
) -> Report
where
    L: ReferenceList + Drop,
    M: Measure + Drop,
    N: Measure + Drop,
    P: Pattern,
    requires room { vec_len answers.old + length second.calls.now ≤ vec_capacity answers.old }
    ensures { Finished search.stage.setup (L.meaning search.list) (M.Measure.cost search.measure) (N.Measure.cost second.entry.measure) search.tally (map (ask_of P.offsets) second.entry.calls.now) answers.old.items answers.new.items result }
{
    let mut search = search.hand_over(second.measure);
    search.run(second.calls, answers);
    search.close()
}

/// Opens a search, makes calls, hands over where a second stage is given and makes its calls, and closes the search. Room
/// for the answers is reserved before anything is tried.
pub fn replay<L, M, N, P>(
    heap: Global,
    opening: Opening<'_, L, M>,
    calls: &[Call<Pairs<'_>, P>],
    second: Option<SecondStage<'_, N, P>>,
) -> Result<Outcome, ReplayError>
where
    L: ReferenceList + Drop,
    M: Measure + Drop,
    N: Measure + Drop,
    P: Pattern,
    ensures { Told result (calls_in (map (ask_of P.offsets) calls.now) (second_of N.Measure.cost P.offsets second.entry)) (opening_fault opening.entry.current.size (L.meaning opening.entry.list) opening.entry.request opening.entry.qp opening.entry.range opening.entry.xs.now opening.entry.ys.now) (Replayed (grid_of opening.entry.current) (L.meaning opening.entry.list) (M.Measure.cost opening.entry.measure) opening.entry.request opening.entry.qp opening.entry.range opening.entry.xs.now opening.entry.ys.now (map (ask_of P.offsets) calls.now) (second_of N.Measure.cost P.offsets second.entry)) }
{
    full_rounds_cover();
    let more = second.as_ref().map_or(0, |second| second.calls.len());
    let room = calls
        .len()
        .checked_add(more)
        .ok_or(ReplayError::OutOfMemory)?;
    let mut answers = Vec::with_capacity(heap, room)?;
    let mut search = Search::open(opening)?;
    search.run(calls, &mut answers);
    let report = match second {
        None => search.close(),
        Some(second) => finish(search, second, &mut answers),
    };
    Ok(Outcome { answers, report })
}
