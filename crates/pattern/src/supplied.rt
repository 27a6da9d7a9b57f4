//! Any of the patterns supplied, by its name.
ghost use Rattle.std.specs.Prelude.{◌≡◌};
ghost use Rattle.settings.specs.Ranges.{Reach};
ghost use Rattle.pattern.specs.Supplied.{supplied_offsets, supplied_few, supplied_short};

use crate::crosses::Cross;
use crate::diamonds::{Diamond, Hexagon};
use crate::patterns::Pattern;
use crate::rings::Rings;
use crate::squares::{Eight, Square};
use rate::Vector;
use settings::SearchRange;

/// The names of the patterns supplied.
#[derive(Clone, Copy, PartialEq, Eq, Debug)]
pub enum Name {
    Diamond,
    Hexagon,
    Square,
    Cross,
    Rings,
    EightOfOne,
    EightOfTwo,
}

/// The pattern of a name, for lists of calls that need several; the cross and the rings are those of a search range.
// The range as a number: a call that lends a struct of a `SearchRange` has no generated proof today.
#[derive(Clone, Copy)]
pub struct Supplied {
    pub name: Name,
    pub range: u8,
    ghost allowed: { Reach range },
}

impl Supplied {
    /// The pattern of a name; the cross or the rings of the range.
    pub fn new(name: Name, range: SearchRange) -> Supplied
        ensures { (result.name ≡ name) × (result.range ≡ range.value) }
    {
        Supplied {
            name,
            range: range.value,
        }
    }
}

impl Pattern for Supplied {
    ghost offsets = { λ p. supplied_offsets p.name p.range };

    ghost few = { λ p. supplied_few p.name p.range p.allowed };

    ghost short = { λ p k. supplied_short p.name p.range p.allowed k };

    fn len(&self) -> usize {
        let range = SearchRange { value: self.range };
        match self.name {
            Name::Diamond => Diamond.len(),
            Name::Hexagon => Hexagon.len(),
            Name::Square => Square.len(),
            Name::Cross => Cross { range }.len(),
            Name::Rings => Rings { range }.len(),
            Name::EightOfOne => Eight::One.len(),
            Name::EightOfTwo => Eight::Two.len(),
        }
    }

    fn offset(&self, i: usize) -> Vector {
        let range = SearchRange { value: self.range };
        match self.name {
            Name::Diamond => Diamond.offset(i),
            Name::Hexagon => Hexagon.offset(i),
            Name::Square => Square.offset(i),
            Name::Cross => Cross { range }.offset(i),
            Name::Rings => Rings { range }.offset(i),
            Name::EightOfOne => Eight::One.offset(i),
            Name::EightOfTwo => Eight::Two.offset(i),
        }
    }
}
