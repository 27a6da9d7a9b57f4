//! The price of the centre of a window, by SAD.
ghost use Rattle.std.specs.Prelude.{◌≡◌, ◌+◌, ◌≤◌, IfSome};
ghost use Rattle.picture.specs.Pictures.{whole_of};
ghost use Rattle.cost.specs.Centres.{centre_price};

use crate::candidates::Candidate;
use crate::prices::Price;
use crate::pricing::Pricing;
use measure::Sad;
use picture::ReferencePictures;
use reference::ComputedList;
use settings::Setup;

/// The price, under SAD, of the centre of a picture's window; nothing for a picture that has no predicted vector.
pub fn price_centre(
    setup: &Setup,
    pictures: &ReferencePictures<'_>,
    picture: usize,
) -> Option<Price>
    ensures value { result ≡ centre_price setup.now (whole_of pictures.now picture) picture }
    ensures most { IfSome result (λ p. p.cost ≤ p.rate_part + 65280) }
{
    let _first = setup.block.first();
    let candidate = Candidate::centre(setup, picture)?;
    let list = ComputedList::new(*pictures);
    let pricing = Pricing {
        setup,
        list: &list,
        measure: &Sad,
    };
    pricing.price(candidate)
}
