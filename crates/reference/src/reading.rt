//! Reading whole samples of a picture, in rows.
ghost use Rattle.std.specs.Prelude.{◌≡◌, ℕ, ◌+◌, ◌*◌, ◌<◌, ◌≤◌, length, pos, ◌+ℤ◌, IfSome, slice_index};
ghost use Rattle.picture.specs.Planes.{grid_of, grid_sample};
ghost use Rattle.reference.specs.Rows.{StartsAt};

use crate::extents::{Extent, fill_rows};
use picture::Plane;

/// `by` whole samples further.
fn further(z: i16, by: usize) -> i32
    requires { by ≤ 21 }
    ensures { result ≡ z +ℤ pos by }
{
    i32::from(z) + by as i32
}

/// Rows of whole samples from a column and a row on, each sample clamped.
// The first column and row are signed here and below, and where all lies inside they are not: no one struct has both.
fn clamp_rows(plane: &Plane<'_>, column: i16, row: i16, extent: Extent, out: &mut [u8])
    requires { length out.old ≡ extent.height * extent.width }
    ensures { (k : ℕ) → k < length out.old → slice_index out.new k ≡ grid_sample (grid_of plane.now) column row extent.width k }
{
    fill_rows(
        out,
        extent,
        |c, r|
            requires { (c ≤ 21) × (r ≤ 21) }
            ensures { result ≡ grid_of plane.entry.now (column +ℤ pos c) (row +ℤ pos r) }
        { plane.whole(further(column, c), further(row, r)) },
    );
}

/// The same where all of them lie inside the picture: whole rows are copied.
fn copy_rows(plane: &Plane<'_>, column: usize, row: usize, extent: Extent, out: &mut [u8])
    requires room { length out.old ≡ extent.height * extent.width }
    requires inside { (column + extent.width ≤ plane.now.size.width) × (row + extent.height ≤ plane.now.size.height) }
    ensures { (k : ℕ) → k < length out.old → slice_index out.new k ≡ grid_sample (grid_of plane.now) (pos column) (pos row) extent.width k }
{
    let width = extent.width;
    // By number: what is written through `chunks_exact_mut` is not known to a proof.
    for r in 0..extent.height {
        let from = (row + r) * plane.size.width + column;
        let to = r * width;
        out[to..to + width].copy_from_slice(&plane.samples[from..from + width]);
    }
}

/// Where `span` samples from `z` on lie inside the size, the first of them.
fn start_inside(z: i16, span: usize, size: usize) -> Option<usize>
    requires { span ≤ 21 }
    ensures { IfSome result (StartsAt z span size) }
{
    usize::try_from(z).ok().filter(|first| first + span <= size)
}

/// Rows of whole samples of a picture, from a column and a row on.
pub(crate) fn read_rows(plane: &Plane<'_>, column: i16, row: i16, extent: Extent, out: &mut [u8])
    requires { length out.old ≡ extent.height * extent.width }
    ensures { (k : ℕ) → k < length out.old → slice_index out.new k ≡ grid_sample (grid_of plane.now) column row extent.width k }
{
    match (
        start_inside(column, extent.width, plane.size.width),
        start_inside(row, extent.height, plane.size.height),
    ) {
        (Some(first_column), Some(first_row)) => copy_rows(
            plane,
            first_column,
            first_row,
            extent,
            out,
        ),
        _ => clamp_rows(plane, column, row, extent, out),
    }
}
