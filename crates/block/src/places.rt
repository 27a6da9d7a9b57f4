//! Places of blocks.
ghost use Rattle.std.specs.Prelude.{◌≡◌, ◌+◌, ◌<◌, ◌≤◌, pos};
ghost use Rattle.picture.specs.Faults.{Answers};
ghost use Rattle.block.specs.Shapes.{shape_width, shape_height};
ghost use Rattle.block.specs.Places.{is_place, start_fault, place_fault, PlaceIs};

use crate::shapes::Shape;
use picture::{Fault, Layer, PictureSize, Row};

/// What a caller asks for: the column and row of a block's first sample, its width and its height.
#[derive(Clone, Copy, PartialEq, Eq, Debug)]
pub struct BlockRequest {
    pub left: i64,
    pub top: i64,
    pub width: i64,
    pub height: i64,
}

/// The column and the row of a block's first sample.
#[derive(Clone, Copy)]
pub(crate) struct Place {
    pub left: usize,
    pub top: usize,
}

// A span and a size, here and below: two numbers of one axis, which nothing keeps together.

/// Whether a block that spans so many columns, or rows, may begin there.
fn is_place(z: i64, span: usize, size: usize) -> bool
    requires { (0 < span) × (span ≤ 16) }
    ensures { result ≡ is_place span size z }
{
    usize::try_from(z).is_ok_and(|from| from % span == 0 && from + span <= size)
}

/// Vets the column, or the row, at which a block that spans so many begins.
fn vet_start(z: i64, span: usize, size: usize) -> Result<usize, Fault>
    requires { (0 < span) × (span ≤ 16) }
    ensures { Answers result (start_fault span size z) (λ from. (pos from ≡ z) × (from + span ≤ size)) }
{
    Fault::unless(is_place(z, span, size), Row::BlockPlace, Layer::Block, z)?;
    Ok(z as usize)
}

/// Vets the place of a block of that shape: its column, then its row.
pub(crate) fn vet_place(
    shape: Shape,
    size: PictureSize,
    left: i64,
    top: i64,
) -> Result<Place, Fault>
    ensures { Answers result (place_fault (shape_width shape) (shape_height shape) size left top) (PlaceIs (shape_width shape) (shape_height shape) size left top) }
{
    let left = vet_start(left, shape.width(), size.width)?;
    let top = vet_start(top, shape.height(), size.height)?;
    Ok(Place { left, top })
}
