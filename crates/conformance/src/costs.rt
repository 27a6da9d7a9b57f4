//! Costs of pairs of strips, compared with those of the table.
ghost use Rattle.std.specs.Prelude.{◌<◌, IfOk};

use crate::Words;
use anyhow::anyhow;
use measure::{Measure, Sad, Satd, Ssd};
use std::alloc::Global;

/// The value of a hexadecimal digit.
// By hand: `to_digit` takes capitals too, which no table has.
fn digit(c: u8) -> anyhow::Result<u8>
    ensures { IfOk result (λ d. d < 16) }
{
    match c {
        b'0'..=b'9' => Ok(c - b'0'),
        b'a'..=b'f' => Ok(c - b'a' + 10),
        _ => Err(anyhow!("not a hexadecimal digit")),
    }
}

/// The samples that are written in hexadecimal, two digits each.
fn samples(heap: Global, text: &str) -> anyhow::Result<Vec<u8>> {
    let (pairs, _) = text.as_bytes().as_chunks::<2>();
    let mut samples = Vec::new(heap);
    for [high, low] in pairs {
        samples.push(16 * digit(*high)? + digit(*low)?)?;
    }
    Ok(samples)
}

/// A record `WIDTH A B SAD SSD SATD`: two strips in hexadecimal, and whether they cost that by each measure.
pub(crate) fn costs_agree(heap: Global, mut words: Words<'_>) -> anyhow::Result<[bool; 3]> {
    let width = words.next().unwrap_or("").parse::<usize>()?;
    let a = samples(heap, words.next().unwrap_or(""))?;
    let b = samples(heap, words.next().unwrap_or(""))?;
    if a.len() / 4 != width {
        return Err(anyhow!("a strip of another width"));
    }
    let (a, b) = (a.as_slice(), b.as_slice());
    let sad = words.next().unwrap_or("").parse::<u32>()?;
    let ssd = words.next().unwrap_or("").parse::<u32>()?;
    let satd = words.next().unwrap_or("").parse::<u32>()?;
    Ok([
        Sad.price(a, b) == sad,
        Ssd.price(a, b) == ssd,
        Satd.price(a, b) == satd,
    ])
}
