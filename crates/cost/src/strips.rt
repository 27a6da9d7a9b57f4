//! Strips of a block and where those of a list lie, and the one use of the law of measures.
ghost use Rattle.std.specs.Prelude.{◌≡◌, ◌*◌, ◌<◌, ◌≤◌, length, pos, ◌+ℤ◌, unsigned_abs};
ghost use Rattle.block.specs.Shapes.{shape_width};
ghost use Rattle.measure.specs.Strips.{asked};
ghost use Rattle.cost.specs.Strips.{block_strip};

use block::Block;
use measure::Measure;

/// Strip `s` of a block: four of its rows, counted from the top.
pub(crate) fn block_strip(block: &Block, s: usize) -> &[u8]
    requires { s < 4 }
    ensures value { result.now ≡ block_strip block.now s }
    ensures long { length result.now ≡ 4 * shape_width block.now.shape }
{
    let size = 4 * block.shape.width();
    let from = s * size;
    &block.samples[from..from + size]
}

/// The quarter-sample position of a column or a row, moved by a component of a vector.
pub(crate) fn position(from: usize, by: i16) -> i16
    requires { (from ≤ 1932) × (unsigned_abs by ≤ 4400) }
    ensures value { result ≡ pos (4 * from) +ℤ by }
    ensures near { unsigned_abs result ≤ 12128 }
{
    4 * from as i16 + by
}

/// What a measure answers of two strips, with the law's bound: so that no running total wraps.
pub(crate) fn priced<M: Measure>(measure: &M, a: &[u8], b: &[u8]) -> u32
    ensures value { result ≡ asked (M.cost measure.now) a.now b.now }
    ensures most { result ≤ 4161600 }
{
    measure.price(a, b)
}
