//! The list in hand, and what it gives.
ghost use Rattle.std.specs.Prelude.{◌↔◌, IsTrue};
ghost use Rattle.conformance.specs.Outcomes.{Gives, HasStrip};

use crate::records::{Outcome, Place, Shape};
use picture::{ReferencePictures, vet_list};
use reference::{ComputedList, DrawnList, ReferenceList, is_strip};
use std::alloc::{AllocError, Global};

/// The list that results are compared with: one that is drawn, where there is one, else one of lent pictures.
// No enum of the two: where a record makes no drawn list, the lent pictures are in hand still.
#[derive(Drop)]
pub(crate) struct Held {
    shape: Shape,
    samples: Vec<u8>,
    drawn: Option<DrawnList>,
}

impl Held {
    /// No picture, before the first list.
    pub(crate) fn none(heap: Global) -> Held {
        Held {
            shape: Shape::default(),
            samples: Vec::new(heap),
            drawn: None,
        }
    }

    /// A list of pictures whose samples follow; of the shape in hand, where none is given.
    pub(crate) fn begin(&mut self, shape: Option<Shape>) {
        self.shape = shape.unwrap_or(self.shape);
        self.samples.clear();
        self.drawn = None;
    }

    /// A drawn list, or none.
    pub(crate) fn draw(&mut self, list: Option<DrawnList>) {
        self.drawn = list;
    }

    /// A row of samples.
    pub(crate) fn extend(&mut self, row: &[u8]) -> Result<(), AllocError> {
        self.samples.extend_from_slice(row)
    }

    /// Whether the list gives that result.
    pub(crate) fn gives(&self, outcome: &Outcome) -> bool {
        if let Some(list) = &self.drawn {
            return outcome.is_of(list);
        }
        let samples = self.samples.as_slice();
        let Shape {
            width,
            height,
            pictures,
        } = self.shape;
        match vet_list(pictures, width, height, samples) {
            Ok(size) => outcome.is_of(&ComputedList::new(ReferencePictures::new(size, samples))),
            Err(_) => false,
        }
    }
}

impl Outcome {
    /// Whether a list gives this.
    fn is_of<L: ReferenceList>(&self, list: &L) -> bool
        ensures { IsTrue result ↔ Gives (L.ReferenceList.meaning list.now) self.now }
    {
        match self {
            Outcome::Sample(place, sample) => {
                list.sample(place.picture, place.x, place.y) == *sample
            }
            Outcome::Strip(place, samples) => strip_is(list, *place, samples.as_slice()),
        }
    }
}

/// Whether a list has this strip at a place.
fn strip_is<L: ReferenceList>(list: &L, place: Place, samples: &[u8]) -> bool
    ensures { IsTrue result ↔ HasStrip (L.ReferenceList.meaning list.now) place.picture place.x place.y samples.now }
{
    let Place { picture, x, y } = place;
    if !is_strip(samples.len()) || x > 32_707 || y > 32_755 {
        return false;
    }
    let mut strip = [0u8; 64];
    let strip = &mut strip[..samples.len()];
    list.strip(picture, x, y, strip);
    &*strip == samples
}
