//! A current and a reference picture.
ghost use Rattle.std.specs.Prelude.{◌≡◌, ◌-◌, ◌/◌, drop, length, pos, take};
ghost use Rattle.picture.specs.Faults.{Answers, earlier};
ghost use Rattle.picture.specs.Vetting.{list_fault, picture_fault};

use picture::{Fault, Plane, ReferencePictures, vet_list, vet_picture};

/// Two pictures of one size over the same bytes, the first the current one.
#[derive(Clone, Copy)]
pub(crate) struct Pair<'a> {
    pub current: Plane<'a>,
    pub reference: ReferencePictures<'a>,
}

impl<'a> Pair<'a> {
    /// The two halves of the bytes, each a picture of that size; the first rule that one breaks, if any.
    pub(crate) fn new(width: i64, height: i64, bytes: &'a [u8]) -> Result<Self, Fault>
        ensures { Answers result (earlier (picture_fault width height (length bytes.now / 2)) (list_fault (pos 1) width height (length bytes.now - length bytes.now / 2))) (λ p. (p.current.samples.now ≡ take (length bytes.now / 2) bytes.now) × (p.reference.samples.now ≡ drop (length bytes.now / 2) bytes.now)) }
    {
        let (current, reference) = bytes.split_at(bytes.len() / 2);
        let size = vet_picture(width, height, current)?;
        let listed = vet_list(1, width, height, reference)?;
        Ok(Pair {
            current: Plane::new(size, current),
            reference: ReferencePictures::new(listed, reference),
        })
    }
}
