//! Copying a block out of the current picture.
ghost use Rattle.std.specs.Prelude.{◌≡◌, ℕ, ◌*◌, ◌<◌, ◌≤◌, slice_index};
ghost use Rattle.picture.specs.Faults.{Answers};
ghost use Rattle.picture.specs.Planes.{grid_of};
ghost use Rattle.block.specs.Shapes.{shape_width, shape_height};
ghost use Rattle.block.specs.Blocks.{block_fault, block_sample, BlockIs};

use crate::blocks::Block;
use crate::places::{BlockRequest, Place, vet_place};
use crate::shapes::Shape;
use picture::{Fault, Plane};

/// The samples of a block, with zeros after them.
fn copied(current: &Plane<'_>, shape: Shape, place: Place) -> [u8; 256]
    requires { (place.left ≤ 1920) × (place.top ≤ 1920) }
    ensures { (k : ℕ) → k < shape_width shape * shape_height shape → slice_index result k ≡ block_sample (grid_of current.now) place.left place.top (shape_width shape) k }
{
    let width = shape.width();
    let mut samples = [0; 256];
    for (k, sample) in samples[..shape.area()].iter_mut().enumerate() {
        *sample = current.whole(
            (place.left + k % width) as i32,
            (place.top + k / width) as i32,
        );
    }
    samples
}

impl Block {
    /// Vets a block's shape and place in the current picture, and copies its samples.
    pub fn new(current: &Plane<'_>, request: BlockRequest) -> Result<Block, Fault>
        ensures { Answers result (block_fault current.now.size request) (BlockIs (grid_of current.now) request) }
    {
        let shape = Shape::try_from((request.width, request.height))?;
        let place = vet_place(shape, current.size, request.left, request.top)?;
        Ok(Block {
            shape,
            left: place.left,
            top: place.top,
            samples: copied(current, shape, place),
        })
    }
}
