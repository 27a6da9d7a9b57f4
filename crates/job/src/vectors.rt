//! Vectors in two parallel arrays.

/// Horizontals, and the verticals at the same places.
#[derive(Clone, Copy)]
pub struct Vectors<'a> {
    // Two slices, as an opening takes them.
    pub xs: &'a [i16],
    pub ys: &'a [i16],
}
