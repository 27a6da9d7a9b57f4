//! The six taps, rounding, and the mean of two samples.
ghost use Rattle.std.specs.Prelude.{◌≡◌, ℕ, ◌<◌, pos, ◌+ℤ◌, ◌*ℤ◌, ◌≤ℤ◌};
ghost use Rattle.std.specs.Int.{int_div_euclid};
ghost use Rattle.std.specs.List.{HoldsAt};
ghost use Rattle.reference.specs.Interpolation.{clip, mean};
ghost use Rattle.reference.specs.Patches.{tap_of};
ghost use Rattle.reference.specs.Bounds.{Within, AllWithin};

/// Six numbers along a line.
pub(crate) fn six<F: Fn(usize) -> i32>(read: F) -> [i32; 6]
    requires { (k : ℕ) → k < 6 → F.pre read k }
    ensures { (k : ℕ) → k < 6 → HoldsAt (F.post read k) result k }
{
    // Written out: `array::from_fn` says of each call only that some state of the closure answered.
    [read(0), read(1), read(2), read(3), read(4), read(5)]
}

/// E − 5F + 20G + 20H − 5I + J.
pub(crate) fn tap_sum(taps: [i32; 6]) -> i32
    requires { AllWithin 16384 taps }
    ensures { result ≡ tap_of taps }
{
    let [e, f, g, h, i, j] = taps;
    e + j - 5 * (f + i) + 20 * (g + h)
}

/// `q`, or the nearest number from 0 to 255.
fn clipped(q: i32) -> u8
    ensures { result ≡ clip q }
{
    q.clamp(0, 255) as u8
}

/// floor((t + HALF) / (2 HALF)), clipped.
pub(crate) fn rounded<const HALF: i32>(t: i32) -> u8
    requires half { (pos 1 ≤ℤ HALF) × (HALF ≤ℤ pos 512) }
    requires small { Within 1048576 t }
    ensures { result ≡ clip (int_div_euclid (t +ℤ HALF) (pos 2 *ℤ HALF)) }
{
    clipped((t + HALF).div_euclid(2 * HALF))
}

/// floor((u + v + 1) / 2); the library's `midpoint` rounds down.
pub(crate) fn mean_of(u: u8, v: u8) -> u8
    ensures { result ≡ mean u v }
{
    ((u16::from(u) + u16::from(v) + 1) / 2) as u8
}
