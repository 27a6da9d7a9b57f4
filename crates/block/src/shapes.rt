//! Shapes of blocks.
ghost use Rattle.std.specs.Prelude.{◌≡◌, ◌*◌, ◌≤◌};
ghost use Rattle.picture.specs.Faults.{Answers};
ghost use Rattle.block.specs.Shapes.{shape_width, shape_height, shape_fault, ShapeIs};

use picture::{Fault, Layer, Row};

/// A block's width and height, in samples.
#[derive(Clone, Copy, PartialEq, Eq, Debug)]
pub enum Shape {
    B16x16,
    B16x8,
    B8x16,
    B8x8,
    B8x4,
    B4x8,
    B4x4,
}

/// Vets a width and a height: the shape that has them.
impl TryFrom<(i64, i64)> for Shape {
    type Error = Fault;

    ghost try_from_gives = { λ asked answer. Answers answer (shape_fault asked.0 asked.1) (ShapeIs asked.0 asked.1) };

    fn try_from(asked: (i64, i64)) -> Result<Shape, Fault> {
        match asked {
            (16, 16) => Ok(Shape::B16x16),
            (16, 8) => Ok(Shape::B16x8),
            (8, 16) => Ok(Shape::B8x16),
            (8, 8) => Ok(Shape::B8x8),
            (8, 4) => Ok(Shape::B8x4),
            (4, 8) => Ok(Shape::B4x8),
            (4, 4) => Ok(Shape::B4x4),
            // Written out: `unless` wants a test, and here the match is the test.
            (width, _) => Err(Fault {
                row: Row::BlockShape,
                layer: Layer::Block,
                value: width,
            }),
        }
    }
}

impl Shape {
    /// The width in samples.
    pub fn width(self) -> usize
        ensures value { result ≡ shape_width self }
        ensures bound { (4 ≤ result) × (result ≤ 16) }
    {
        match self {
            Shape::B16x16 | Shape::B16x8 => 16,
            Shape::B8x16 | Shape::B8x8 | Shape::B8x4 => 8,
            Shape::B4x8 | Shape::B4x4 => 4,
        }
    }

    /// The height in samples.
    // A table of its own: by height the shapes fall into other groups than by width.
    pub fn height(self) -> usize
        ensures value { result ≡ shape_height self }
        ensures bound { (4 ≤ result) × (result ≤ 16) }
    {
        match self {
            Shape::B16x16 | Shape::B8x16 => 16,
            Shape::B16x8 | Shape::B8x8 | Shape::B4x8 => 8,
            Shape::B8x4 | Shape::B4x4 => 4,
        }
    }

    /// The number of samples.
    pub(crate) fn area(self) -> usize
        ensures value { result ≡ shape_width self * shape_height self }
        ensures bound { result ≤ 256 }
    {
        self.width() * self.height()
    }
}
