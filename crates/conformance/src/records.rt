//! The records of the table.
use anyhow::anyhow;
use reference::{DrawnList, vet_drawn};
use std::alloc::{AllocError, Global};

/// How large the pictures of a list are, and how many there are of them.
#[derive(Clone, Copy, Default)]
pub(crate) struct Shape {
    pub width: i64,
    pub height: i64,
    pub pictures: i64,
}

/// A place in a list: a picture, and a position in quarter samples.
#[derive(Clone, Copy)]
pub(crate) struct Place {
    pub picture: usize,
    pub x: i16,
    pub y: i16,
}

/// What a list gives at a place: a sample, or a strip of them.
#[derive(Drop)]
pub(crate) enum Outcome {
    Sample(Place, u8),
    Strip(Place, Vec<u8>),
}

/// What a line of the table says; nothing where its numbers make no such list, or no result that a list can give.
#[derive(Drop)]
pub(crate) enum Record {
    List(Option<Shape>),
    Drawn(Option<DrawnList>),
    Samples(Vec<u8>),
    Outcome(Option<Outcome>),
}

// Here and below an `Option`: a record that says nothing has no reason to give, as `try_from` would want.
impl Shape {
    fn read(numbers: &[i64]) -> Option<Shape> {
        let &[width, height, pictures] = numbers else {
            return None;
        };
        Some(Shape {
            width,
            height,
            pictures,
        })
    }
}

impl Place {
    fn read(picture: i64, x: i64, y: i64) -> Option<Place> {
        Some(Place {
            picture: usize::try_from(picture).ok()?,
            x: i16::try_from(x).ok()?,
            y: i16::try_from(y).ok()?,
        })
    }
}

impl Outcome {
    fn read_sample(numbers: &[i64]) -> Option<Outcome> {
        let &[picture, x, y, sample] = numbers else {
            return None;
        };
        Some(Outcome::Sample(Place::read(picture, x, y)?, u8::try_from(sample).ok()?))
    }

    fn read_strip(heap: Global, numbers: &[i64]) -> Result<Option<Outcome>, AllocError> {
        let &[picture, x, y, width, ref samples @ ..] = numbers else {
            return Ok(None);
        };
        let mut strip = Vec::new(heap);
        for sample in samples {
            let Ok(sample) = u8::try_from(*sample) else {
                return Ok(None);
            };
            strip.push(sample)?;
        }
        if i64::try_from(strip.len() / 4) != Ok(width) {
            return Ok(None);
        }
        Ok(Place::read(picture, x, y).map(|place| Outcome::Strip(place, strip)))
    }
}

impl Record {
    /// The record of a kind that has these numbers.
    // The kind's word is told apart here and nowhere else. No `FromStr`, which has no place for the heap.
    pub(crate) fn read(heap: Global, kind: &str, numbers: &[i64]) -> anyhow::Result<Record> {
        match kind {
            "list" => Ok(Record::List(Shape::read(numbers))),
            "drawn" => Ok(Record::Drawn(drawn(numbers))),
            "samples" => Ok(Record::Samples(samples(heap, numbers)?)),
            "at" => Ok(Record::Outcome(Outcome::read_sample(numbers))),
            "strip" => Ok(Record::Outcome(Outcome::read_strip(heap, numbers)?)),
            _ => Err(anyhow!("an unknown record")),
        }
    }
}

fn drawn(numbers: &[i64]) -> Option<DrawnList> {
    let &[width, height, pictures, a, b, c] = numbers else {
        return None;
    };
    let (a, b, c) = (
        u8::try_from(a).ok()?,
        u8::try_from(b).ok()?,
        u8::try_from(c).ok()?,
    );
    let size = vet_drawn(pictures, width, height).ok()?;
    Some(DrawnList::new(size, a, b, c))
}

/// Samples, with 0 for a number that is none: what such a table says then differs from what a list gives.
fn samples(heap: Global, numbers: &[i64]) -> Result<Vec<u8>, AllocError> {
    numbers
        .iter()
        .map(|number| u8::try_from(*number).unwrap_or(0))
        .collect(heap)
}
