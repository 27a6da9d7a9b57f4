//! The call that tries vectors from two arrays.
ghost use Rattle.std.specs.Prelude.{◌≡◌, ◌^◌, ◌<◌, ◌≤◌, true, length, pos, filter, [], ◌∷◌, IfErr, unsigned_abs, cond};
ghost use Rattle.picture.specs.Faults.{Answers, first};
ghost use Rattle.search.specs.Terms.{is_inside, terms_of};
ghost use Rattle.search.specs.Tallies.{tallied, tallies};
ghost use Rattle.search.specs.Calls.{offer_fault, offered, pair_in, pairs_rule};
ghost use Rattle.search.specs.Agreed.{Makes, offer_list};

use crate::searches::Search;
use crate::trying::{vet_limit, vet_picture};
use cost::Candidate;
use measure::Measure;
use picture::{Fault, Layer, Row};
use rate::Vector;
use reference::ReferenceList;
use window::{Stage, contains};

/// An offer has no more vectors than this.
const MOST_OFFERED: usize = 64;

/// Vets the lengths of the arrays of an offer.
fn vet_pairs(xs: &[i16], ys: &[i16]) -> Result<(), Fault>
    ensures { Answers result (first (pairs_rule (length xs.now) (length ys.now) ∷ [])) (λ _. (length xs.now ≡ length ys.now) × (length xs.now ≤ 64)) }
{
    let paired = xs.len() == ys.len() && xs.len() <= MOST_OFFERED;
    let longer = xs.len().max(ys.len());
    Fault::unless(paired, Row::ArrayLength, Layer::Search, longer as i64)
}

/// Vets an offer, in the order of the rows, and gives its picture.
fn vet_offer<S: Stage>(
    stage: &S,
    trials: u64,
    picture: i64,
    xs: &[i16],
    ys: &[i16],
) -> Result<usize, Fault>
    requires { trials ≤ 2 ^ 50 }
    ensures { Answers result (offer_fault (S.Stage.window stage.now) trials picture (length xs.now) (length ys.now)) (λ r. (r ≡ unsigned_abs picture) × ((S.Stage.window stage.now).named r ≡ true) × (length xs.now ≡ length ys.now) × (length xs.now ≤ 64) × (trials < 1000000)) }
{
    vet_pairs(xs, ys)?;
    let picture = vet_picture(stage, picture)?;
    vet_limit(trials)?;
    Ok(picture)
}

/// The candidate at a place of two arrays.
fn pair(picture: usize, xs: &[i16], ys: &[i16], i: usize) -> Candidate
    requires { (i < length xs.now) × (i < length ys.now) }
    ensures { result ≡ pair_in picture xs.now ys.now i }
{
    Candidate {
        picture,
        vector: Vector { x: xs[i], y: ys[i] },
    }
}

impl<L: ReferenceList, M: Measure, S: Stage> Search<L, M, S> {
    /// Tries a candidate of a picture that may be named if it lies in the window, and passes over it if not.
    pub(crate) fn consider(&mut self, candidate: Candidate)
        requires named { (S.Stage.window self.old.stage).named candidate.picture ≡ true }
        requires room { self.old.tally.trials ≤ 2 ^ 49 }
        ensures considered { self.new.tally ≡ cond (is_inside (S.Stage.window self.old.stage) candidate) (tallied (terms_of (S.Stage.window self.old.stage) (S.Stage.setup self.old.stage) (L.meaning self.old.list) (M.cost self.old.measure)) self.old.tally candidate) self.old.tally }
        ensures same { (self.new.list ≡ self.old.list) × (self.new.measure ≡ self.old.measure) × (self.new.stage ≡ self.old.stage) }
    {
        if contains(&self.stage, candidate) {
            self.enter(candidate);
        }
    }

    /// Tries the vectors of two arrays that lie in a picture's window, in order; tells how many those were.
    fn enter_pairs(&mut self, picture: usize, xs: &[i16], ys: &[i16]) -> u64
        requires named { (S.Stage.window self.old.stage).named picture ≡ true }
        requires paired { (length xs.now ≡ length ys.now) × (length xs.now ≤ 64) }
        requires room { self.old.tally.trials ≤ 2 ^ 48 }
        ensures entered { self.new.tally ≡ tallies (terms_of (S.Stage.window self.old.stage) (S.Stage.setup self.old.stage) (L.meaning self.old.list) (M.cost self.old.measure)) self.old.tally (offered (S.Stage.window self.old.stage) picture xs.now ys.now) }
        ensures made { result ≡ length (offered (S.Stage.window self.old.stage) picture xs.now ys.now) }
        ensures same { (self.new.list ≡ self.old.list) × (self.new.measure ≡ self.old.measure) × (self.new.stage ≡ self.old.stage) }
    {
        let before = self.tally.trials;
        for i in 0..xs.len() {
            self.consider(pair(picture, xs, ys, i));
        }
        self.tally.trials - before
    }

    /// Tries vectors of a picture, horizontals and verticals in two arrays, that lie in its window; tells how many those were.
    pub fn offer(&mut self, picture: i64, xs: &[i16], ys: &[i16]) -> Result<u64, Fault>
        ensures offered { Answers result (offer_fault (S.Stage.window self.old.stage) self.old.tally.trials picture (length xs.now) (length ys.now)) (Makes (terms_of (S.Stage.window self.old.stage) (S.Stage.setup self.old.stage) (L.meaning self.old.list) (M.cost self.old.measure)) self.old.tally self.new.tally (offer_list (unsigned_abs picture) xs.now ys.now)) }
        ensures refused { IfErr result (λ _. self.new.tally ≡ self.old.tally) }
        ensures same { (self.new.list ≡ self.old.list) × (self.new.measure ≡ self.old.measure) × (self.new.stage ≡ self.old.stage) }
    {
        let picture = vet_offer(&self.stage, self.tally.trials, picture, xs, ys)?;
        Ok(self.enter_pairs(picture, xs, ys))
    }
}
