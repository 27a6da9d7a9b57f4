//! The lines of a job's vectors.
ghost use Rattle.std.specs.Prelude.{◌≡◌};
ghost use Rattle.std.specs.Option.{option_map};
ghost use Rattle.picture.specs.Pictures.{whole_of};
ghost use Rattle.reference.specs.Computed.{computed};
ghost use Rattle.cost.specs.Centres.{centre_price};
ghost use Rattle.cost.specs.Strips.{price_of};
ghost use Rattle.price.specs.Lines.{centre_line, line_of, sad_price};

use cost::{Candidate, Price, Pricing};
use measure::{Measure, Sad, Satd, Ssd};
use opening::Line;
use reference::ComputedList;
use settings::Setup;

/// What vectors are priced with, under every measure.
#[derive(Clone, Copy)]
pub(crate) struct Prices<'a> {
    pub setup: &'a Setup,
    pub list: &'a ComputedList<'a>,
}

impl Prices<'_> {
    /// The price of a candidate by a measure; nothing where it has none.
    fn price<M: Measure>(&self, measure: &M, candidate: Candidate) -> Option<Price>
        ensures { result ≡ price_of self.now.setup.now (computed self.now.list.now) (M.cost measure.now) candidate }
    {
        let Prices { setup, list } = *self;
        let pricing = Pricing {
            setup,
            list,
            measure,
        };
        pricing.price(candidate)
    }

    /// The line of a candidate, with its cost under each measure; nothing where it has no price.
    pub(crate) fn line(&self, candidate: Candidate) -> Option<Line<3>>
        ensures { result ≡ line_of self.now.setup.now (computed self.now.list.now) candidate }
    {
        let sad = self.price(&Sad, candidate)?;
        let ssd = self.price(&Ssd, candidate)?;
        let satd = self.price(&Satd, candidate)?;
        Some(Line {
            candidate,
            rate_part: sad.rate_part,
            costs: [sad.cost, ssd.cost, satd.cost],
        })
    }

    /// The line of the centre of a picture's window; nothing for a picture that has no predicted vector. Its SAD is that of
    /// the picture's own samples.
    pub(crate) fn centre(&self, picture: usize) -> Option<Line<3>>
        ensures line { result ≡ centre_line self.now.setup.now (computed self.now.list.now) picture }
        ensures own { option_map sad_price result ≡ centre_price self.now.setup.now (whole_of self.now.list.now.pictures picture) picture }
    {
        let _first = self.setup.block.first();
        self.line(Candidate::centre(self.setup, picture)?)
    }
}
