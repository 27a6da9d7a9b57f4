//! A search under way.
ghost use Rattle.std.specs.Prelude.{◌≡◌, ℕ, ◌+◌, ◌*◌, ◌^◌, ◌<◌, ◌≤◌, length, slice_index};
ghost use Rattle.search.specs.Terms.{MayTry};

use crate::tallies::Tally;
use window::Stage;

/// A search of one stage, over a list and by a measure. The stage is a part of its type, so that a search that was handed
/// over or closed takes no call.
#[derive(Drop)]
pub struct Search<L, M, S: Stage> {
    pub(crate) list: L,
    pub(crate) measure: M,
    pub(crate) stage: S,
    pub(crate) tally: Tally,
    ghost inside: { MayTry (S.Stage.window stage) tally.held },
    ghost low: { tally.cost ≤ 16650321 },
    ghost few: { tally.strips ≤ 4 * tally.trials },
    // A first stage, whose unit is four times as great, leaves room for the trial of a handover.
    ghost spare: { tally.trials + (S.Stage.window stage).scale ≤ 2 ^ 50 },
    // The block's samples are in an array of 256 bytes. Its type says so, but nobody outside can read the block of a search.
    ghost full: { length (S.Stage.setup stage).block.samples ≡ 256 },
    ghost bytes: { (k : ℕ) → slice_index (S.Stage.setup stage).block.samples k < 256 },
}
