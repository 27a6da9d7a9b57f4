//! Patches: reading one, and its tap sums.
ghost use Rattle.std.specs.Prelude.{◌≡◌, ◌+◌, ◌*◌, ◌<◌, ◌≤◌};
ghost use Rattle.picture.specs.Planes.{grid_of};
ghost use Rattle.reference.specs.Bounds.{Within};
ghost use Rattle.reference.specs.Patches.{patch_at, Shows, row_tap, column_tap};

use crate::extents::Extent;
use crate::patches::Patch;
use crate::positions::Position;
use crate::reading::read_rows;
use crate::taps::{six, tap_sum};
use picture::Plane;

impl Patch {
    /// The patch of a rectangle that begins at a position's cell.
    pub(crate) fn read(plane: &Plane<'_>, position: Position, width: usize, height: usize) -> Patch
        requires { (1 ≤ width) × (width ≤ 16) × (1 ≤ height) × (height ≤ 4) }
        ensures shows { Shows result (grid_of plane.now) position.column position.row }
        ensures width { result.width ≡ width }
        ensures height { result.height ≡ height }
    {
        let Position { column, row, .. } = position;
        let mut samples = [0u8; 189];
        let extent = Extent {
            width: width + 5,
            height: height + 5,
        };
        read_rows(
            plane,
            column - 2,
            row - 2,
            extent,
            &mut samples[..extent.area()],
        );
        Patch {
            width,
            height,
            samples,
        }
    }

    /// The sample at a column and a row of the patch.
    pub(crate) fn at(&self, c: usize, r: usize) -> u8
        requires { (c < self.now.width + 5) × (r < self.now.height + 5) }
        ensures { result ≡ patch_at self.now c r }
    {
        self.samples[r * (self.width + 5) + c]
    }

    /// The tap sum of a row, from column `c` on.
    pub(crate) fn row_sum(&self, c: usize, r: usize) -> i32
        requires { (c < self.now.width) × (r < self.now.height + 5) }
        ensures value { result ≡ row_tap self.now c r }
        ensures small { Within 16384 result }
    {
        tap_sum(six(|k| i32::from(self.at(c + k, r))))
    }

    /// The tap sum of a column, from row `r` on.
    // As that of a row: one line, of which the axis is all that differs.
    pub(crate) fn column_sum(&self, c: usize, r: usize) -> i32
        requires { (c < self.now.width + 5) × (r < self.now.height) }
        ensures value { result ≡ column_tap self.now c r }
        ensures small { Within 16384 result }
    {
        tap_sum(six(|k| i32::from(self.at(c, r + k))))
    }
}
