//! Patterns, compared with a table of their offsets.
ghost use Rattle.std.specs.Prelude.{◌≡◌, ◌↔◌, IsTrue};

use crate::offsets::Offsets;
use pattern::{Cross, Diamond, Eight, Hexagon, Pattern, Rings, Square};
use rate::Vector;

/// Whether the pattern of that name and range has these offsets.
// By name: each pattern has a type of its own, so that no one value stands for a name.
pub(crate) fn offsets_agree(name: &str, record: &Offsets) -> bool {
    let offsets = record.offsets.as_slice();
    match name {
        "diamond" => lists(&Diamond, offsets),
        "hexagon" => lists(&Hexagon, offsets),
        "square" => lists(&Square, offsets),
        "eight1" => lists(&Eight::One, offsets),
        "eight2" => lists(&Eight::Two, offsets),
        "cross" => Cross::try_from(record.far).is_ok_and(|cross| lists(&cross, offsets)),
        "rings" => Rings::try_from(record.far).is_ok_and(|rings| lists(&rings, offsets)),
        _ => false,
    }
}

/// Whether a pattern has just these offsets, and (0, 0) after them.
fn lists<P: Pattern>(pattern: &P, offsets: &[Vector]) -> bool
    ensures { IsTrue result ↔ (P.offsets pattern.now ≡ offsets.now) }
{
    if pattern.len() != offsets.len() || pattern.offset(offsets.len()) != (Vector { x: 0, y: 0 }) {
        return false;
    }
    for (i, offset) in offsets.iter().enumerate() {
        if pattern.offset(i) != *offset {
            return false;
        }
    }
    true
}
