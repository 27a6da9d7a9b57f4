//! Pairs of strips.
ghost use Rattle.std.specs.Prelude.{◌≡◌, MatchOption};
ghost use Rattle.measure.specs.Strips.{Strips};

use crate::measures::are_strips;

/// Two strips of one width, the block's and the list's.
#[derive(Clone, Copy)]
pub(crate) struct Pair<'a> {
    pub a: &'a [u8],
    pub b: &'a [u8],
    ghost strips: { Strips a.now b.now },
}

impl<'a> Pair<'a> {
    /// Two slices that are strips of one width; nothing for any other two.
    pub(crate) fn of(a: &'a [u8], b: &'a [u8]) -> Option<Pair<'a>>
        ensures { MatchOption result (Strips a.now b.now → ⊥) (λ pair. (pair.a.now ≡ a.now) × (pair.b.now ≡ b.now)) }
    {
        if are_strips(a.len(), b.len()) {
            Some(Pair { a, b })
        } else {
            None
        }
    }
}
