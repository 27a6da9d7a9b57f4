//! Whether a vector lies in a window, for any stage.
ghost use Rattle.std.specs.Prelude.{◌≡◌};
ghost use Rattle.window.specs.Windows.{inside, inside_across, inside_down, is_near};

use crate::stages::Stage;
use cost::Candidate;

/// Whether a component is at most so far from the centre's: any two 16-bit numbers, whose difference may want 17 bits.
fn is_near(reach: u8, centre: i16, z: i16) -> bool
    ensures { result ≡ is_near reach centre z }
{
    z.abs_diff(centre) <= reach as u16
}

// Two calls of one line: a component as a parameter would be longer than the line that it spares.

/// Whether the horizontal component of a candidate lies in its picture's window.
pub fn contains_across<S: Stage>(stage: &S, candidate: Candidate) -> bool
    ensures { result ≡ inside_across (S.Stage.window stage.now) candidate.picture candidate.vector }
{
    is_near(
        stage.reach(),
        stage.centre(candidate.picture).x,
        candidate.vector.x,
    )
}

/// Whether the vertical component of a candidate lies in its picture's window.
pub fn contains_down<S: Stage>(stage: &S, candidate: Candidate) -> bool
    ensures { result ≡ inside_down (S.Stage.window stage.now) candidate.picture candidate.vector }
{
    is_near(
        stage.reach(),
        stage.centre(candidate.picture).y,
        candidate.vector.y,
    )
}

/// Whether a candidate lies in its picture's window.
pub fn contains<S: Stage>(stage: &S, candidate: Candidate) -> bool
    ensures { result ≡ inside (S.Stage.window stage.now) candidate.picture candidate.vector }
{
    contains_across(stage, candidate) && contains_down(stage, candidate)
}
