//! Sums over the samples of two strips, sixteen at a time and by a signed difference: in this form the compiler makes
//! vector code of them.
ghost use Rattle.std.specs.Prelude.{◌≡◌, ◌*◌, ◌≤◌, length};
ghost use Rattle.measure.specs.Sums.{gap, GivesAtMost, IsSumBy, sad, ssd};

use crate::pairs::Pair;

/// How far two samples are apart.
fn apart(x: u8, y: u8) -> u32
    ensures value { result ≡ gap x y }
    ensures most { result ≤ 255 }
{
    (x as i32 - y as i32).unsigned_abs()
}

/// The square of that.
fn apart_squared(x: u8, y: u8) -> u32
    ensures value { result ≡ gap x y * gap x y }
    ensures most { result ≤ 65025 }
{
    let d = apart(x, y);
    d * d
}

/// The sum of what `cost` gives for the samples of two strips, place by place.
fn sum_by<F: Fn(u8, u8) -> u32>(strips: Pair<'_>, cost: F) -> u32
    requires callable { F.IsAlwaysCallable cost }
    requires most { GivesAtMost 65025 (F.post cost) }
    ensures { IsSumBy (F.post cost) strips.entry.a.now strips.entry.b.now (length strips.entry.a.now) result }
{
    let (these, _) = strips.a.as_chunks::<16>();
    let (those, _) = strips.b.as_chunks::<16>();
    let mut sum: u32 = 0;
    for (p, q) in these.iter().zip(those) {
        for (x, y) in p.iter().zip(q) {
            sum += cost(*x, *y);
        }
    }
    sum
}

/// The sum of the absolute differences of two strips.
pub(crate) fn absolute_sum(strips: Pair<'_>) -> u32
    ensures { result ≡ sad strips.entry.a.now strips.entry.b.now }
{
    sum_by(strips, apart)
}

/// The sum of the squared differences of two strips.
pub(crate) fn squared_sum(strips: Pair<'_>) -> u32
    ensures { result ≡ ssd strips.entry.a.now strips.entry.b.now }
{
    sum_by(strips, apart_squared)
}
