//! The offsets that a record lists.
use rate::Vector;
use std::alloc::{AllocError, Global};

/// What a record of offsets says: the range or the reach that they belong to, and the offsets.
#[derive(Drop)]
pub(crate) struct Offsets {
    pub far: i64,
    pub offsets: Vec<Vector>,
}

impl Offsets {
    /// A number, then pairs of components; nothing where a component has no pair, or no vector can have it.
    pub(crate) fn read(heap: Global, numbers: &[i64]) -> Result<Option<Offsets>, AllocError> {
        let &[far, ref components @ ..] = numbers else {
            return Ok(None);
        };
        let (pairs, []) = components.as_chunks::<2>() else {
            return Ok(None);
        };
        let mut offsets = Vec::new(heap);
        for [x, y] in pairs {
            let (Ok(x), Ok(y)) = (i16::try_from(*x), i16::try_from(*y)) else {
                return Ok(None);
            };
            offsets.push(Vector { x, y })?;
        }
        Ok(Some(Offsets { far, offsets }))
    }
}
