//! Pricing candidates: a trial under a bound, and the price in full.
ghost use Rattle.std.specs.Prelude.{◌≡◌, ◌<◌, ◌≤◌, true, false, IfSome, MatchOption, unsigned_abs};
ghost use Rattle.cost.specs.Rating.{is_priced, rate_part_of};
ghost use Rattle.cost.specs.Prices.{Tried, total_of};
ghost use Rattle.cost.specs.Strips.{parts_of, price_of, strip_cost};

use crate::candidates::Candidate;
use crate::prices::{Price, Trial};
use crate::rating::rate_part;
use crate::strips::{block_strip, position, priced};
use measure::Measure;
use reference::ReferenceList;
use settings::Setup;

/// What candidates are priced with: a block and its settings, a list and a measure.
#[derive(Clone, Copy)]
pub struct Pricing<'a, L, M> {
    pub setup: &'a Setup,
    pub list: &'a L,
    pub measure: &'a M,
}

impl<L: ReferenceList, M: Measure> Pricing<'_, L, M> {
    /// The cost of strip `s` of the block against the list's samples that lie under it, once it is moved by the candidate.
    // A call of its own: inside `judge` it would cost every trial its buffer, also one that reads no strip.
    #[inline(never)]
    fn strip_cost(&self, candidate: Candidate, s: usize) -> u32
        requires { (unsigned_abs candidate.vector.x ≤ 4400) × ((unsigned_abs candidate.vector.y ≤ 4400) × (s < 4)) }
        ensures value { result ≡ strip_cost (M.cost self.now.measure.now) (L.meaning self.now.list.now) self.now.setup.now.block candidate s }
        ensures most { result ≤ 4161600 }
    {
        let block = &self.setup.block;
        let x = position(block.left, candidate.vector.x);
        let y = position(block.top + 4 * s, candidate.vector.y);
        let mut samples = [0; 64];
        let strip = &mut samples[..4 * block.shape.width()];
        self.list.strip(candidate.picture, x, y, strip);
        priced(self.measure, block_strip(block, s), strip)
    }

    /// From the rate part on, strip by strip from the top, until the running total reaches the bound or no strip is left.
    #[inline]
    fn judge(&self, candidate: Candidate, rate_part: u32, bound: u32) -> Trial
        requires near { (unsigned_abs candidate.vector.x ≤ 4400) × (unsigned_abs candidate.vector.y ≤ 4400) }
        requires rated { (rate_part ≡ rate_part_of self.now.setup.now candidate) × (rate_part ≤ 3921) }
        ensures tried { Tried (parts_of self.now.setup.now (L.meaning self.now.list.now) (M.cost self.now.measure.now) candidate) bound result }
        ensures most { total_of result.cost ≤ 16650321 }
    {
        let strips = self.setup.block.shape.height() / 4;
        let mut total = rate_part;
        // By number: the block's strip and the list's are both found by it.
        for s in 0..strips {
            if total >= bound {
                return Trial {
                    cost: Err(total),
                    strips: s,
                };
            }
            total += self.strip_cost(candidate, s);
        }
        let cost = if total < bound { Ok(total) } else { Err(total) };
        Trial { cost, strips }
    }

    /// Tries a candidate, in quarter samples, under a bound; nothing where it has no price.
    pub fn try_under(&self, candidate: Candidate, bound: u32) -> Option<Trial>
        ensures tried { MatchOption result (is_priced self.now.setup.now candidate ≡ false) (λ t. (is_priced self.now.setup.now candidate ≡ true) × Tried (parts_of self.now.setup.now (L.meaning self.now.list.now) (M.cost self.now.measure.now) candidate) bound t) }
        ensures most { IfSome result (λ t. total_of t.cost ≤ 16650321) }
    {
        let rate_part = rate_part(self.setup, candidate)?;
        Some(self.judge(candidate, rate_part, bound))
    }

    /// The price of a candidate, in quarter samples, all strips read; nothing where it has none.
    pub fn price(&self, candidate: Candidate) -> Option<Price>
        ensures value { result ≡ price_of self.now.setup.now (L.meaning self.now.list.now) (M.cost self.now.measure.now) candidate }
        ensures most { IfSome result (λ p. p.cost ≤ 16650321) }
    {
        let rate_part = rate_part(self.setup, candidate)?;
        let cost = self.judge(candidate, rate_part, u32::MAX).cost.ok()?;
        Some(Price {
            vector: candidate.vector,
            rate_part,
            cost,
        })
    }
}
