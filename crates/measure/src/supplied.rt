//! The measures supplied.
ghost use Rattle.measure.specs.Sums.{sad, ssd};
ghost use Rattle.measure.specs.Transforms.{satd};
ghost use Rattle.measure.specs.Totals.{sad_within, ssd_most};
ghost use Rattle.measure.specs.Squares.{satd_within};

use crate::measures::Measure;
use crate::pairs::Pair;
use crate::sums::{absolute_sum, squared_sum};
use crate::transforms::transformed_sum;

/// The sum of absolute differences.
#[derive(Clone, Copy)]
pub struct Sad;

impl Measure for Sad {
    ghost cost = { λ _. sad };

    ghost most = { λ m a b x y s. sad_within a b x y };

    fn price(&self, a: &[u8], b: &[u8]) -> u32 {
        Pair::of(a, b).map_or(0, absolute_sum)
    }
}

/// The sum of squared differences.
#[derive(Clone, Copy)]
pub struct Ssd;

impl Measure for Ssd {
    ghost cost = { λ _. ssd };

    ghost most = { λ m a b x y s. ssd_most a b x y };

    fn price(&self, a: &[u8], b: &[u8]) -> u32 {
        Pair::of(a, b).map_or(0, squared_sum)
    }
}

/// Half the sum of absolute transformed differences, over 4x4 squares.
#[derive(Clone, Copy)]
pub struct Satd;

impl Measure for Satd {
    ghost cost = { λ _. satd };

    ghost most = { λ m a b x y s. satd_within a b x y };

    fn price(&self, a: &[u8], b: &[u8]) -> u32 {
        Pair::of(a, b).map_or(0, transformed_sum)
    }
}
