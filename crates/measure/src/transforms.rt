//! Half the sum of absolute transformed differences, over the 4x4 squares of two strips.
ghost use Rattle.std.specs.Prelude.{◌≡◌, ◌+◌, ◌*◌, ◌/◌, ◌<◌, ◌≤◌, length, pos, ◌+ℤ◌, ◌-ℤ◌, unsigned_abs};
ghost use Rattle.measure.specs.Fours.{AllWithin, Within, entries, flipped, four_of, matrix_of, part, row, size_of, turned, turned_rows};
ghost use Rattle.measure.specs.Sums.{total};
ghost use Rattle.measure.specs.Transforms.{difference_at, matrix_at, satd, satd4, spread};

use crate::pairs::Pair;
use std::array::from_fn;

/// Four differences, or four sums of them.
type Four = [i32; 4];

/// A 4x4 matrix, row by row.
type Matrix = [Four; 4];

/// A butterfly: the sum of two numbers, and the first less the second.
fn cross(a: i32, b: i32) -> (i32, i32)
    requires { (unsigned_abs a ≤ 4080) × (unsigned_abs b ≤ 4080) }
    ensures { (result.0 ≡ a +ℤ b) × (result.1 ≡ a -ℤ b) }
{
    (a + b, a - b)
}

/// Four numbers transformed by (1,1,1,1), (1,1,-1,-1), (1,-1,-1,1), (1,-1,1,-1).
fn transform(x: Four) -> Four
    requires { Within 1020 x }
    ensures { result ≡ turned x }
{
    let [a, b, c, d] = x;
    let (front_sum, front_difference) = cross(a, b);
    let (back_sum, back_difference) = cross(c, d);
    let (even_sum, even_difference) = cross(front_sum, back_sum);
    let (odd_sum, odd_difference) = cross(front_difference, back_difference);
    [even_sum, even_difference, odd_difference, odd_sum]
}

/// Each row of a matrix transformed.
fn transform_rows(x: Matrix) -> Matrix
    requires { AllWithin 1020 x }
    ensures { result ≡ turned_rows x }
{
    x.map(transform)
}

/// The column c of a matrix.
fn column(x: &Matrix, c: usize) -> Four
    requires { c < 4 }
    ensures { result ≡ four_of (λ r. entries x.now r c) }
{
    // By pattern: `x.map(|row| row[c])` needs clauses at the closure, and is no plainer.
    let [p, q, r, s] = x;
    [p[c], q[c], r[c], s[c]]
}

/// Rows for columns.
fn flip(x: Matrix) -> Matrix
    ensures { result ≡ flipped x }
{
    from_fn(
        |c|
            requires { c < 4 }
            ensures { result ≡ four_of (λ r. entries x r c) }
        { column(&x, c) },
    )
}

/// The sum of four absolute values.
fn four_size(x: &Four) -> u32
    requires { Within 4080 x.now }
    ensures value { result ≡ size_of x.now }
    ensures most { result ≤ 16320 }
{
    // A `for`, here and below: its invariant has the bound that a `sum` would ask for.
    let mut sum: u32 = 0;
    for v in x {
        sum += v.unsigned_abs();
    }
    sum
}

/// The sum of the absolute values of a matrix.
fn matrix_size(x: &Matrix) -> u32
    requires { AllWithin 4080 x.now }
    ensures value { result ≡ total 4 (λ r. size_of (row x.now r)) }
    ensures most { result ≤ 65280 }
{
    let mut sum: u32 = 0;
    for row in x {
        sum += four_size(row);
    }
    sum
}

/// What a square with these differences costs: half the sum of the sixteen absolute values of their transform.
fn square_cost(x: Matrix) -> u32
    requires { AllWithin 255 x }
    ensures value { result ≡ satd4 (entries x) }
    ensures exact { 2 * result ≡ spread (entries x) }
    ensures most { result ≤ 32640 }
{
    let turned = transform_rows(flip(transform_rows(x)));
    matrix_size(&turned) / 2
}

/// A sample less another.
fn less(x: u8, y: u8) -> i32
    ensures value { result ≡ pos x -ℤ pos y }
    ensures most { unsigned_abs result ≤ 255 }
{
    i32::from(x) - i32::from(y)
}

/// The differences of four samples and four others.
fn differences(p: &[u8; 4], q: &[u8; 4]) -> Four
    ensures value { result ≡ four_of (difference_at p.now q.now) }
    ensures most { Within 255 result }
{
    from_fn(
        |c|
            requires { c < 4 }
            ensures value { result ≡ difference_at p.entry.now q.entry.now c }
            ensures most { unsigned_abs result ≤ 255 }
        { less(p[c], q[c]) },
    )
}

/// The row r of the differences of the n-th square of two strips, from the left.
fn matrix_row(strips: Pair<'_>, n: usize, r: usize) -> Four
    requires { (n < length strips.a.now / 16) × (r < 4) }
    ensures value { result ≡ four_of (matrix_at strips.entry.a.now strips.entry.b.now n r) }
    ensures most { Within 255 result }
{
    let (these, _) = strips.a.as_chunks::<4>();
    let (those, _) = strips.b.as_chunks::<4>();
    let place = r * (strips.a.len() / 16) + n;
    differences(&these[place], &those[place])
}

/// The differences of the n-th square of two strips, from the left.
fn matrix_at(strips: Pair<'_>, n: usize) -> Matrix
    requires { n < length strips.a.now / 16 }
    ensures value { result ≡ matrix_of (matrix_at strips.entry.a.now strips.entry.b.now n) }
    ensures most { AllWithin 255 result }
{
    from_fn(
        |r|
            requires { (n < length strips.a.now / 16) × (r < 4) }
            ensures value { result ≡ four_of (matrix_at strips.entry.a.now strips.entry.b.now n r) }
            ensures most { Within 255 result }
        { matrix_row(strips, n, r) },
    )
}

/// The sum over the squares of two strips.
pub(crate) fn transformed_sum(strips: Pair<'_>) -> u32
    ensures { result ≡ satd strips.entry.a.now strips.entry.b.now }
{
    let mut sum: u32 = 0;
    // By number: the rows of a square do not stand side by side, so that no slice has squares for its items.
    for n in 0..strips.a.len() / 16 {
        sum += square_cost(matrix_at(strips, n));
    }
    sum
}
