//! The cells of a patch's rectangle, and their samples.
ghost use Rattle.std.specs.Prelude.{◌≡◌, ℕ, ◌+◌, ◌*◌, ◌/◌, ◌%◌, ◌<◌, length, slice_index};
ghost use Rattle.reference.specs.Bounds.{Within};
ghost use Rattle.reference.specs.Patches.{RowSums, row_tap, both_tap, part_in, sample_in};

use crate::extents::{Extent, fill_rows};
use crate::parts::{Part, Sample};
use crate::patches::Patch;
use crate::taps::{mean_of, rounded, six, tap_sum};

/// A patch and the tap sums of all its rows, each worked out once.
#[derive(Clone, Copy)]
pub(crate) struct Cells {
    pub patch: Patch,
    // Fixed memory, for 16 columns and 9 rows.
    pub sums: [i32; 144],
    ghost summed: { RowSums patch sums },
}

impl Cells {
    /// The cells of a patch.
    pub(crate) fn of(patch: Patch) -> Cells
        ensures { result.patch ≡ patch }
    {
        let mut sums = [0i32; 144];
        let extent = Extent {
            width: patch.width,
            height: patch.height + 5,
        };
        fill_rows(
            &mut sums[..extent.area()],
            extent,
            |c, r| patch.row_sum(c, r),
        );
        Cells { patch, sums }
    }

    /// The tap sum of a row of the patch, from column `c` on.
    #[tactic(auto, using(crate::proofs::Places::sum_is))]
    pub(crate) fn row_sum(&self, c: usize, r: usize) -> i32
        requires { (c < self.now.patch.width) × (r < self.now.patch.height + 5) }
        ensures value { result ≡ row_tap self.now.patch c r }
        ensures small { Within 16384 result }
    {
        self.sums[r * self.patch.width + c]
    }

    /// The tap sum down a column of the rows' tap sums, from row `r` on.
    pub(crate) fn both_sum(&self, c: usize, r: usize) -> i32
        requires { (c < self.now.patch.width) × (r < self.now.patch.height) }
        ensures value { result ≡ both_tap self.now.patch c r }
        ensures small { Within 1048576 result }
    {
        tap_sum(six(|k| self.row_sum(c, r + k)))
    }

    /// A part of the cell at column `i`, row `r` of the rectangle.
    // A column and a row, here and above: a struct that ties the two to their patch would be made anew for each sample.
    #[tactic(auto, unfolding(crate::specs::Interpolation::rounded, crate::specs::Interpolation::rounded_twice))]
    fn part(&self, part: Part, i: usize, r: usize) -> u8
        requires { (i < self.now.patch.width) × (r < self.now.patch.height) }
        ensures { result ≡ part_in part self.now.patch i r }
    {
        match part {
            Part::Whole => self.patch.at(i + 2, r + 2),
            Part::Right => self.patch.at(i + 3, r + 2),
            Part::Below => self.patch.at(i + 2, r + 3),
            Part::Across => rounded::<16>(self.row_sum(i, r + 2)),
            Part::AcrossBelow => rounded::<16>(self.row_sum(i, r + 3)),
            Part::Down => rounded::<16>(self.patch.column_sum(i + 2, r)),
            Part::DownRight => rounded::<16>(self.patch.column_sum(i + 3, r)),
            Part::Middle => rounded::<512>(self.both_sum(i, r)),
        }
    }

    /// A sample of that cell.
    fn sample(&self, sample: Sample, i: usize, r: usize) -> u8
        requires { (i < self.now.patch.width) × (r < self.now.patch.height) }
        ensures { result ≡ sample_in sample self.now.patch i r }
    {
        match sample {
            Sample::One(part) => self.part(part, i, r),
            Sample::Mean(one, other) => mean_of(self.part(one, i, r), self.part(other, i, r)),
        }
    }

    /// That sample of each cell, row by row.
    pub(crate) fn fill(&self, sample: Sample, out: &mut [u8])
        requires { length out.old ≡ self.now.patch.height * self.now.patch.width }
        ensures { (k : ℕ) → k < length out.old → slice_index out.new k ≡ sample_in sample self.now.patch (k % self.now.patch.width) (k / self.now.patch.width) }
    {
        let extent = Extent {
            width: self.patch.width,
            height: self.patch.height,
        };
        fill_rows(out, extent, |i, r| self.sample(sample, i, r));
    }
}
