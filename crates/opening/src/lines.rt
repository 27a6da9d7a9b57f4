//! The line that a program prints for a vector.
ghost use Rattle.std.specs.Prelude.{Some};
ghost use Rattle.opening.specs.Lines.{line_text};

use cost::Candidate;
use std::fmt;

/// A vector in a picture, the rate part of its cost, and its cost under each of some measures.
#[derive(Clone, Copy, PartialEq, Eq, Debug)]
pub struct Line<const N: usize> {
    pub candidate: Candidate,
    pub rate_part: u32,
    pub costs: [u32; N],
}

/// `PICTURE X Y RATE COST ..`, in decimal.
impl<const N: usize> fmt::Display for Line<N> {
    ghost output = { λ line. Some (line_text line.candidate line.rate_part line.costs) };

    fn fmt<W: fmt::Write>(&self, f: &mut fmt::Formatter<W>) -> fmt::Result {
        let picture = self.candidate.picture;
        let x = self.candidate.vector.x;
        let y = self.candidate.vector.y;
        let rate = self.rate_part;
        write!(f, "{picture} {x} {y} {rate}")?;
        for cost in &self.costs {
            write!(f, " {cost}")?;
        }
        Ok(())
    }
}
