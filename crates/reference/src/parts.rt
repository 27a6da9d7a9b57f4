//! The parts of a cell that its sixteen samples are made of.
ghost use Rattle.std.specs.Prelude.{◌≡◌, pos, unsigned_abs};
ghost use Rattle.std.specs.Int.{int_rem_euclid};
ghost use Rattle.reference.specs.Parts.{quarters, place, sample_at};

/// The cell's own sample, its right and its lower neighbour; half samples across and down, also of those neighbours; and the middle.
#[derive(Clone, Copy, PartialEq, Eq)]
pub(crate) enum Part {
    Whole,
    Right,
    Below,
    Across,
    AcrossBelow,
    Down,
    DownRight,
    Middle,
}

/// What a sample is: one part, or the mean of two.
#[derive(Clone, Copy, PartialEq, Eq)]
pub(crate) enum Sample {
    One(Part),
    Mean(Part, Part),
}

/// How far a position lies past a whole sample, across or downwards.
#[derive(Clone, Copy, PartialEq, Eq)]
pub(crate) enum Fraction {
    Zero,
    Quarter,
    Half,
    ThreeQuarters,
}

/// That of a place in quarter samples.
impl From<i16> for Fraction {
    ghost from_gives = { λ z f. quarters f ≡ unsigned_abs (int_rem_euclid z (pos 4)) };

    fn from(z: i16) -> Fraction {
        match z.rem_euclid(4) {
            0 => Fraction::Zero,
            1 => Fraction::Quarter,
            2 => Fraction::Half,
            _ => Fraction::ThreeQuarters,
        }
    }
}

impl Sample {
    /// The sample that lies so far across and so far down in its cell.
    #[tactic(auto, unfolding(crate::specs::Parts::sample_at))]
    pub(crate) fn at(across: Fraction, down: Fraction) -> Sample
        ensures { result ≡ sample_at (place across down) }
    {
        match (down, across) {
            (Fraction::Zero, Fraction::Zero) => Sample::One(Part::Whole),
            (Fraction::Zero, Fraction::Quarter) => Sample::Mean(Part::Whole, Part::Across),
            (Fraction::Zero, Fraction::Half) => Sample::One(Part::Across),
            (Fraction::Zero, Fraction::ThreeQuarters) => Sample::Mean(Part::Across, Part::Right),
            (Fraction::Quarter, Fraction::Zero) => Sample::Mean(Part::Whole, Part::Down),
            (Fraction::Quarter, Fraction::Quarter) => Sample::Mean(Part::Across, Part::Down),
            (Fraction::Quarter, Fraction::Half) => Sample::Mean(Part::Across, Part::Middle),
            (Fraction::Quarter, Fraction::ThreeQuarters) => Sample::Mean(
                Part::Across,
                Part::DownRight,
            ),
            (Fraction::Half, Fraction::Zero) => Sample::One(Part::Down),
            (Fraction::Half, Fraction::Quarter) => Sample::Mean(Part::Down, Part::Middle),
            (Fraction::Half, Fraction::Half) => Sample::One(Part::Middle),
            (Fraction::Half, Fraction::ThreeQuarters) => Sample::Mean(
                Part::Middle,
                Part::DownRight,
            ),
            (Fraction::ThreeQuarters, Fraction::Zero) => Sample::Mean(Part::Down, Part::Below),
            (Fraction::ThreeQuarters, Fraction::Quarter) => Sample::Mean(
                Part::Down,
                Part::AcrossBelow,
            ),
            (Fraction::ThreeQuarters, Fraction::Half) => Sample::Mean(
                Part::Middle,
                Part::AcrossBelow,
            ),
            (Fraction::ThreeQuarters, Fraction::ThreeQuarters) => Sample::Mean(
                Part::AcrossBelow,
                Part::DownRight,
            ),
        }
    }
}
