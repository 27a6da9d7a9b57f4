//! Quantiser parameters, their lambda, and the rate part of a cost.
ghost use Rattle.std.specs.Prelude.{◌≡◌, ◌<◌, ◌≤◌, pos};
ghost use Rattle.picture.specs.Faults.{Answers};
ghost use Rattle.rate.specs.Greatest.{Greatest};
ghost use Rattle.rate.specs.Lambdas.{Under, scaled_lambda, rate_part_at};
ghost use Rattle.rate.specs.Qps.{qp_fault};

use crate::lambdas::lambdas;
use picture::{Fault, Layer, Row};

/// A quantiser parameter: 0 to 51.
#[derive(Clone, Copy, PartialEq, Eq, Debug)]
pub struct Qp {
    pub value: u8,
    ghost ok: { value < 52 },
}

/// Vets a quantiser parameter.
impl TryFrom<i64> for Qp {
    type Error = Fault;

    ghost try_from_gives = { λ qp answer. Answers answer (qp_fault qp) (λ q. pos q.value ≡ qp) };

    fn try_from(qp: i64) -> Result<Qp, Fault> {
        let known = (0..=51).contains(&qp);
        Fault::unless(known, Row::Qp, Layer::Settings, qp)?;
        Ok(Qp { value: qp as u8 })
    }
}

impl Qp {
    /// The scaled lambda L(QP): the greatest whole number whose sixth power, times 8,000, is at most 4,913 times 2 to the power 84 + QP.
    pub fn lambda(self) -> u32
        ensures greatest { Greatest (Under self.value) result }
        ensures value { result ≡ scaled_lambda self.value }
        ensures most { result ≤ 5468703 }
    {
        lambdas()[self.value as usize]
    }

    /// The rate part of a cost: floor(L(QP) * R / 65,536), where R is this many bits.
    pub fn rate_part(self, bits: u8) -> u32
        ensures value { result ≡ rate_part_at self.value bits }
        ensures most { bits ≤ 47 → result ≤ 3921 }
    {
        self.lambda() * bits as u32 / 65_536
    }
}
