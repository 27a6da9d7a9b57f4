//! Vetting of all that vectors are priced with.
ghost use Rattle.std.specs.Prelude.{◌≡◌, ◌<◌, ◌^◌};
ghost use Rattle.picture.specs.Faults.{Answers};
ghost use Rattle.picture.specs.Planes.{grid_of};
ghost use Rattle.settings.specs.Setups.{side_fault, mismatch_fault, setup_fault, SetupIs};

use crate::predicted::{Predicted, vet_arrays};
use crate::ranges::SearchRange;
use crate::setups::Setup;
use block::{Block, BlockRequest};
use picture::{Fault, Layer, ListSize, PictureSize, Plane, Row};
use rate::Qp;

/// Vets a width or a height of a list's pictures against that of the current picture.
fn vet_same(listed: usize, current: usize) -> Result<(), Fault>
    requires { listed < 2 ^ 63 }
    ensures { Answers result (side_fault listed current) (λ _. listed ≡ current) }
{
    Fault::unless(
        listed == current,
        Row::SizeMismatch,
        Layer::ReferenceList,
        listed as i64,
    )
}

/// Vets that the pictures of a list are of the current picture's size.
fn vet_same_size(current: PictureSize, listed: PictureSize) -> Result<(), Fault>
    ensures { Answers result (mismatch_fault current listed) (λ _. (listed.width ≡ current.width) × (listed.height ≡ current.height)) }
{
    vet_same(listed.width, current.width)?;
    vet_same(listed.height, current.height)
}

impl Setup {
    // One by one, as an opening takes them: each has a rule of its own, and the arrays are lent.
    /// Vets the arrays of predicted vectors, the block, the list's size, the settings, then the predicted vectors; copies the block and those vectors.
    pub fn new(
        current: &Plane<'_>,
        list: ListSize,
        request: BlockRequest,
        qp: i64,
        range: i64,
        xs: &[i16],
        ys: &[i16],
    ) -> Result<Setup, Fault>
        ensures { Answers result (setup_fault current.now.size list request qp range xs.now ys.now) (SetupIs (grid_of current.now) list request qp range xs.now ys.now) }
    {
        vet_arrays(list.pictures, xs, ys)?;
        let block = Block::new(current, request)?;
        vet_same_size(current.size, list.picture)?;
        let qp = Qp::try_from(qp)?;
        let range = SearchRange::try_from(range)?;
        let predicted = Predicted::new(list, xs, ys)?;
        Ok(Setup {
            block,
            qp,
            range,
            predicted,
        })
    }
}
