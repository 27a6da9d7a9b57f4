//! SAD that counts the two middle rows of a strip double.
ghost use Rattle.std.specs.Prelude.{◌≡◌, ◌<◌, ◌≤◌, length};
ghost use Rattle.measure.specs.Strips.{Strips};
ghost use Rattle.buyer.specs.Middles.{middle_rows, weight, weighted_at};
ghost use Rattle.buyer.specs.Laws.{middle_rows_most};

use measure::{Measure, are_strips};

/// The sum of absolute differences, those of the rows 1 and 2 twice.
#[derive(Clone, Copy)]
pub struct MiddleRows;

/// How often a row of a strip counts.
fn weight(row: usize) -> u32
    ensures value { result ≡ weight row }
    ensures most { result ≤ 2 }
{
    if matches!(row, 1 | 2) { 2 } else { 1 }
}

/// What the samples at a place add.
fn weighted_at(a: &[u8], b: &[u8], k: usize) -> u32
    requires strips { Strips a.now b.now }
    requires inside { k < length a.now }
    ensures value { result ≡ weighted_at a.now b.now k }
    ensures most { result ≤ 510 }
{
    let width = a.len() / 4;
    weight(k / width) * u32::from(a[k].abs_diff(b[k]))
}

impl Measure for MiddleRows {
    ghost cost = { λ _. middle_rows };

    ghost most = { λ m a b x y s. middle_rows_most a b x y };

    #[tactic(auto, using(measure::specs::Totals::total_step))]
    fn price(&self, a: &[u8], b: &[u8]) -> u32 {
        if !are_strips(a.len(), b.len()) {
            return 0;
        }
        let mut sum = 0;
        // By place, as the definition adds them.
        for k in 0..a.len() {
            sum += weighted_at(a, b, k);
        }
        sum
    }
}
