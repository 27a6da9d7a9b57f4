//! A full round under way.
ghost use Rattle.std.specs.Prelude.{◌+◌, ◌≤◌};
ghost use Rattle.pattern.specs.Offsets.{Within};
ghost use Rattle.window.specs.Rests.{Stands};

use rate::Vector;

/// A place in the order of a full round: a ring, and a row and a column of the ring's square, counted from its top left corner.
#[derive(Clone, Copy)]
pub(crate) struct Spot {
    pub(crate) ring: u8,
    pub(crate) row: u8,
    pub(crate) column: u8,
    ghost stands: { Stands ring row column },
}

/// All vectors of a window, by growing distance from its centre; `spot` is the next.
#[derive(Clone, Copy, Drop)]
pub struct Round {
    pub(crate) centre: Vector,
    pub(crate) reach: u8,
    pub(crate) spot: Spot,
    ghost near: { Within 4352 centre × (reach ≤ 64) },
    ghost within: { spot.ring ≤ reach + 1 },
}
