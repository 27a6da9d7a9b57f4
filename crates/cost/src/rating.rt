//! The rate part of a candidate's cost.
ghost use Rattle.std.specs.Prelude.{◌≡◌, ◌≤◌, IfSome};
ghost use Rattle.cost.specs.Rating.{rated_by};

use crate::candidates::Candidate;
use rate::vector_rate;
use settings::Setup;

/// The rate part; nothing for a picture that has no predicted vector, or a vector more than 261 from it in a component.
pub fn rate_part(setup: &Setup, candidate: Candidate) -> Option<u32>
    ensures value { result ≡ rated_by setup.now candidate }
    ensures most { IfSome result (λ part. part ≤ 3921) }
{
    let predicted = setup.predicted.get(candidate.picture)?;
    let bits = vector_rate(
        candidate.vector,
        predicted,
        candidate.picture,
        setup.predicted.pictures,
    )?;
    Some(setup.qp.rate_part(bits))
}
