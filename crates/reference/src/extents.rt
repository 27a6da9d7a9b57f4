//! Rows of one width, and filling them by a rule.
ghost use Rattle.std.specs.Prelude.{◌≡◌, ℕ, ◌*◌, ◌/◌, ◌%◌, ◌<◌, ◌≤◌, length};
ghost use Rattle.std.specs.List.{HoldsAt};

/// So many columns and rows, at most those of a patch.
// Each function that fills a buffer by rows asks for its length: a struct of an extent and a `&mut [u8]` can't have that as a ghost field.
#[derive(Clone, Copy)]
pub(crate) struct Extent {
    pub width: usize,
    pub height: usize,
    ghost narrow: { (1 ≤ width) × (width ≤ 21) },
    ghost low: { height ≤ 9 },
}

impl Extent {
    /// The number of samples.
    pub(crate) fn area(self) -> usize
        ensures value { result ≡ self.height * self.width }
        ensures small { result ≤ 189 }
    {
        self.height * self.width
    }
}

/// Writes what `value` gives for each place of a row.
fn fill_row<T: Copy, F: Fn(usize) -> T>(row: &mut [T], value: F)
    requires { (k : ℕ) → k < length row.old → F.pre value k }
    ensures { (k : ℕ) → k < length row.old → HoldsAt (F.post value k) row.new k }
{
    for (k, place) in row.iter_mut().enumerate() {
        *place = value(k);
    }
}

/// Writes what `value` gives for each column and row, row by row.
pub(crate) fn fill_rows<T: Copy, F: Fn(usize, usize) -> T>(out: &mut [T], extent: Extent, value: F)
    requires room { length out.old ≡ extent.height * extent.width }
    requires callable { (column row : ℕ) → column < extent.width → row < extent.height → F.pre value column row }
    ensures { (k : ℕ) → k < length out.old → HoldsAt (F.post value (k % extent.width) (k / extent.width)) out.new k }
{
    // By number: what is written through `chunks_exact_mut` is not known to a proof.
    for row in 0..extent.height {
        let from = row * extent.width;
        fill_row(
            &mut out[from..from + extent.width],
            |column|
                requires { F.pre value column row }
                ensures { F.post value column row result }
            { value(column, row) },
        );
    }
}
