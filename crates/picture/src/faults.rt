//! Faults: which rule a call met, in which layer, and the value found.
ghost use Rattle.std.specs.Prelude.{◌≡◌, true};
ghost use Rattle.picture.specs.Faults.{Answers, unless, row_number, layer_number};

/// The rule that turned a call away. Where several apply, the one listed first is given.
#[derive(Clone, Copy, PartialEq, Eq, Debug)]
pub enum Row {
    PictureSize = 1,
    PictureCount = 2,
    ArrayLength = 3,
    ByteLength = 4,
    BlockShape = 5,
    BlockPlace = 6,
    SizeMismatch = 7,
    Qp = 8,
    SearchRange = 9,
    PredictedVector = 10,
    PictureNumber = 11,
    OutsideWindow = 12,
    TrialLimit = 13,
}

/// What the faulty value belongs to.
#[derive(Clone, Copy, PartialEq, Eq, Debug)]
pub enum Layer {
    CurrentPicture = 1,
    ReferenceList = 2,
    Block = 3,
    Settings = 4,
    Search = 5,
    JobFile = 6,
}

/// A refusal.
#[derive(Clone, Copy, PartialEq, Eq, Debug)]
pub struct Fault {
    pub row: Row,
    pub layer: Layer,
    pub value: i64,
}

impl Fault {
    /// Refuses with this fault unless the rule is kept.
    pub fn unless(kept: bool, row: Row, layer: Layer, value: i64) -> Result<(), Fault>
        ensures { Answers result (unless kept row layer value) (λ _. kept ≡ true) }
    {
        if kept {
            Ok(())
        } else {
            Err(Fault { row, layer, value })
        }
    }
}

/// The number printed for the row.
impl From<Row> for u8 {
    ghost from_gives = { λ row n. n ≡ row_number row };

    fn from(row: Row) -> u8 {
        row as u8
    }
}

/// The number printed for the layer.
impl From<Layer> for u8 {
    ghost from_gives = { λ layer n. n ≡ layer_number layer };

    fn from(layer: Layer) -> u8 {
        layer as u8
    }
}
