//! The whole samples that interpolation reaches.
ghost use Rattle.std.specs.Prelude.{◌≤◌};

/// A rectangle of at most 16 by 4 whole samples, with two columns and rows before it and three after it.
#[derive(Clone, Copy)]
pub(crate) struct Patch {
    pub width: usize,
    pub height: usize,
    // Fixed memory, for 21 columns and 9 rows: the library never allocates.
    pub samples: [u8; 189],
    ghost narrow: { (1 ≤ width) × (width ≤ 16) },
    ghost low: { (1 ≤ height) × (height ≤ 4) },
}
