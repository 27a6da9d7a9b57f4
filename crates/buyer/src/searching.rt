//! Searches over levels, by the middle rows, along corners.
ghost use Rattle.picture.specs.Faults.{Answers};
ghost use Rattle.search.specs.Replays.{Told};
ghost use Rattle.buyer.specs.Corners.{corners};
ghost use Rattle.buyer.specs.Walked.{Walked, WalkedTwice, fault_of};

use crate::corners::Corners;
use crate::levels::Levels;
use crate::middles::MiddleRows;
use picture::Fault;
use search::{Call, Opening, Outcome, ReplayError, Report, Search, SecondStage, replay};
use std::alloc::Global;
use std::slice;

/// Opens a search, walks the corners, hands over what is held, and closes. It allocates nothing.
pub fn walk_corners(
    opening: Opening<'_, Levels<'_>, MiddleRows>,
    pattern: &Corners,
) -> Result<Report, Fault>
    ensures { Answers result (fault_of opening.entry) (Walked opening.entry (corners pattern.now.distance)) }
{
    let mut search = Search::open(opening)?;
    search.walk(pattern)?;
    Ok(search.hand_over(MiddleRows).close())
}

/// A whole run: it walks the far corners, hands over, and walks the near ones.
pub fn replay_corners(
    heap: Global,
    opening: Opening<'_, Levels<'_>, MiddleRows>,
    far: &Corners,
    near: &Corners,
) -> Result<Outcome, ReplayError>
    ensures { Told result 2 (fault_of opening.entry) (WalkedTwice opening.entry (corners far.now.distance) (corners near.now.distance)) }
{
    let first = Call::Walk(*far);
    let then = Call::Walk(*near);
    let second = SecondStage {
        measure: MiddleRows,
        calls: slice::from_ref(&then),
    };
    replay(heap, opening, slice::from_ref(&first), Some(second))
}
