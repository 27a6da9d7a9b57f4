//! The computing list over lent pictures: its samples and strips.
ghost use Rattle.std.specs.Prelude.{◌≡◌, ℕ, ◌*◌, ◌/◌, ◌%◌, ◌<◌, ◌≤◌, true, length, pos, ◌+ℤ◌, slice_index};
ghost use Rattle.picture.specs.Planes.{grid_of};
ghost use Rattle.reference.specs.Interpolation.{quarter};
ghost use Rattle.reference.specs.Lists.{is_strip};
ghost use Rattle.reference.specs.Parts.{place, sample_at, sample_on};
ghost use Rattle.reference.specs.Computed.{computed};

use crate::cells::Cells;
use crate::extents::Extent;
use crate::lists::ReferenceList;
use crate::parts::{Fraction, Sample};
use crate::patches::Patch;
use crate::positions::Position;
use crate::reading::read_rows;
use picture::{Plane, ReferencePictures};

/// A reference list that works each sample out when it is asked for.
#[derive(Clone, Copy)]
pub struct ComputedList<'a> {
    pub pictures: ReferencePictures<'a>,
}

impl<'a> ComputedList<'a> {
    /// The list of vetted pictures.
    pub fn new(pictures: ReferencePictures<'a>) -> Self
        ensures { result.pictures ≡ pictures.entry }
    {
        ComputedList { pictures }
    }
}

/// The sample at a position's fractions, of each cell of a rectangle that begins at the position's cell.
fn interpolate(plane: &Plane<'_>, position: Position, width: usize, height: usize, out: &mut [u8])
    requires small { (1 ≤ width) × (width ≤ 16) × (1 ≤ height) × (height ≤ 4) }
    requires room { length out.old ≡ height * width }
    ensures { (k : ℕ) → k < length out.old → slice_index out.new k ≡ sample_on (sample_at (place position.across position.down)) (grid_of plane.now) (position.column +ℤ pos (k % width)) (position.row +ℤ pos (k / width)) }
{
    let sample = Sample::at(position.across, position.down);
    Cells::of(Patch::read(plane, position, width, height)).fill(sample, out);
}

/// The sample of a picture at (`x`, `y`) in quarter samples.
fn sample_in(plane: &Plane<'_>, x: i16, y: i16) -> u8
    ensures { result ≡ quarter (grid_of plane.now) x y }
{
    let mut out = [0u8; 1];
    interpolate(plane, Position::of(x, y), 1, 1, &mut out);
    out[0]
}

/// A strip of a picture from (`x`, `y`) on: rows of whole samples as they are, others from one patch.
fn strip_in(plane: &Plane<'_>, x: i16, y: i16, out: &mut [u8])
    requires { is_strip (length out.old) ≡ true }
    ensures { (k : ℕ) → k < length out.old → slice_index out.new k ≡ quarter (grid_of plane.now) (x +ℤ pos (4 * (k % (length out.old / 4)))) (y +ℤ pos (4 * (k / (length out.old / 4)))) }
{
    let width = out.len() / 4;
    let position = Position::of(x, y);
    match (position.across, position.down) {
        (Fraction::Zero, Fraction::Zero) => {
            read_rows(
                plane,
                position.column,
                position.row,
                Extent { width, height: 4 },
                out,
            )
        }
        _ => interpolate(plane, position, width, 4, out),
    }
}

impl<'a> ReferenceList for ComputedList<'a> {
    ghost meaning = { computed };

    // A `ListSize` gives these three here and in the drawn list. A trait for that would be one more for each buyer's list.
    fn len(&self) -> usize {
        self.pictures.size.pictures
    }

    fn width(&self) -> usize {
        self.pictures.size.picture.width
    }

    fn height(&self) -> usize {
        self.pictures.size.picture.height
    }

    fn sample(&self, picture: usize, x: i16, y: i16) -> u8 {
        self.pictures
            .get(picture)
            .map_or(0, |plane| sample_in(&plane, x, y))
    }

    fn strip(&self, picture: usize, x: i16, y: i16, out: &mut [u8]) {
        match self.pictures.get(picture) {
            Some(plane) => strip_in(&plane, x, y, out),
            None => out.fill(0),
        }
    }
}
