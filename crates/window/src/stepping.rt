//! Steps through a full round.
ghost use Rattle.std.specs.Prelude.{◌≡◌, ℕ, ◌+◌, ◌*◌, ◌≤◌, ◌∷◌, pos, ◌-ℤ◌, unsigned_abs};
ghost use Rattle.std.specs.Iterator.{YieldsFirst, item_count};
ghost use Rattle.window.specs.Lefts.{left};
ghost use Rattle.pattern.specs.Offsets.{Within};
ghost use Rattle.window.specs.Rests.{rest_from, spot_at};
ghost use Rattle.window.specs.Rounds.{Covers, round_of};
ghost use Rattle.window.specs.Windows.{Window};

use crate::rounds::{Round, Spot};
use crate::stages::Stage;
use rate::Vector;
use std::iter::FusedIterator;

/// The place after another: along a row, across the inside of the ring, down to the next row, or out to the next ring.
fn after(spot: Spot) -> Spot
    requires { spot.ring ≤ 64 }
    ensures follows { (far : ℕ) → spot.ring ≤ far → rest_from far spot.ring spot.row spot.column ≡ spot_at spot.ring spot.row spot.column ∷ rest_from far result.ring result.row result.column }
    ensures near { result.ring ≤ spot.ring + 1 }
{
    let last = 2 * spot.ring;
    if spot.column < last {
        if spot.row == 0 || spot.row == last {
            return Spot {
                ring: spot.ring,
                row: spot.row,
                column: spot.column + 1,
            };
        }
        return Spot {
            ring: spot.ring,
            row: spot.row,
            column: last,
        };
    }
    if spot.row < last {
        return Spot {
            ring: spot.ring,
            row: spot.row + 1,
            column: 0,
        };
    }
    Spot {
        ring: spot.ring + 1,
        row: 0,
        column: 0,
    }
}

/// How far a row or a column lies from the middle one of a ring's square.
fn from_middle(place: u8, ring: u8) -> i16
    requires { (place ≤ 2 * ring) × (ring ≤ 64) }
    ensures value { result ≡ pos place -ℤ pos ring }
    ensures small { unsigned_abs result ≤ 64 }
{
    place as i16 - ring as i16
}

/// The offset at a place.
fn offset_at(spot: Spot) -> Vector
    requires { spot.ring ≤ 64 }
    ensures value { result ≡ spot_at spot.ring spot.row spot.column }
    ensures small { Within 64 result }
{
    Vector {
        x: from_middle(spot.column, spot.ring),
        y: from_middle(spot.row, spot.ring),
    }
}

impl Round {
    /// The full round of a picture of a stage: every vector of its window, no other, each once.
    pub fn of<S: Stage>(stage: &S, picture: usize) -> Round
        ensures order { left result ≡ round_of (S.Stage.window stage.now) picture }
        ensures whole { Covers (S.Stage.window stage.now) picture (left result) }
    {
        Round {
            centre: stage.centre(picture),
            reach: stage.reach(),
            spot: Spot {
                ring: 0,
                row: 0,
                column: 0,
            },
        }
    }
}

/// The order of a full round goes through any window: it has every vector of it, no other, each once.
pub fn full_rounds_cover()
    ensures { (w : Window) (r : ℕ) → Covers w r (round_of w r) }
{}

/// The next vector, as long as one is left.
impl Iterator for Round {
    type Item = Vector;

    ghost next_gives = { YieldsFirst left };

    ghost remaining = { item_count left };

    fn next(&mut self) -> Option<Vector> {
        if self.spot.ring > self.reach {
            return None;
        }
        let vector = self.centre + offset_at(self.spot);
        self.spot = after(self.spot);
        Some(vector)
    }
}

impl FusedIterator for Round {}
