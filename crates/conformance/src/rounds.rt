//! Full rounds, compared with a table of their offsets.
ghost use Rattle.std.specs.Prelude.{◌≡◌, ◌↔◌, IsTrue, map, ◌+ℤ◌};
ghost use Rattle.pattern.specs.Offsets.{moved};
ghost use Rattle.window.specs.Rounds.{round_of};

use crate::offsets::Offsets;
use block::BlockRequest;
use cost::Candidate;
use picture::{Fault, Plane, vet_list, vet_picture};
use rate::Vector;
use settings::Setup;
use window::{Quarter, Round, Stage, Whole};

/// Whether a full round of that reach goes through these offsets; 3 is the second stage's reach.
pub(crate) fn round_agrees(record: &Offsets) -> bool {
    let offsets = record.offsets.as_slice();
    // The table names a stage by its reach alone, and no search range is 3.
    match record.far {
        3 => handed().is_some_and(|quarter| goes_through(&quarter, offsets)),
        reach => whole_of(reach).is_ok_and(|whole| goes_through(&whole, offsets)),
    }
}

/// A second stage, about a vector that is not (0, 0).
fn handed() -> Option<Quarter> {
    let candidate = Candidate {
        picture: 0,
        vector: Vector { x: 11, y: -4 },
    };
    whole_of(4).ok()?.hand_over(candidate)
}

/// A first stage of one picture, whose centre is not (0, 0).
fn whole_of(range: i64) -> Result<Whole, Fault> {
    let bytes = [0u8; 256];
    let size = vet_picture(16, 16, &bytes)?;
    let list = vet_list(1, 16, 16, &bytes)?;
    let request = BlockRequest {
        left: 0,
        top: 0,
        width: 16,
        height: 16,
    };
    let plane = Plane::new(size, &bytes);
    let setup = Setup::new(&plane, list, request, 0, range, &[41], &[-23])?;
    Ok(Whole { setup })
}

/// Whether the full round of picture 0 goes through these offsets from the centre, and no others.
fn goes_through<S: Stage>(stage: &S, offsets: &[Vector]) -> bool
    ensures { IsTrue result ↔ (round_of (S.Stage.window stage.now) 0 ≡ map (moved ((S.Stage.window stage.now).centre 0)) offsets.now) }
{
    let centre = stage.centre(0);
    let mut round = Round::of(stage, 0);
    for offset in offsets {
        match round.next() {
            Some(vector) if is_moved(vector, centre, *offset) => {}
            _ => return false,
        }
    }
    round.next().is_none()
}

/// Whether a vector is another moved by an offset.
fn is_moved(vector: Vector, from: Vector, offset: Vector) -> bool
    ensures { IsTrue result ↔ (vector ≡ moved from offset) }
{
    let across = is_sum(vector.x, from.x, offset.x);
    let down = is_sum(vector.y, from.y, offset.y);
    across && down
}

/// Whether a component is the sum of two, which may need more bits.
// By component: `+` asks that the sum be a vector.
fn is_sum(z: i16, a: i16, b: i16) -> bool
    ensures { IsTrue result ↔ (z ≡ a +ℤ b) }
{
    a.checked_add(b) == Some(z)
}
