//! What a search reports.
ghost use Rattle.std.specs.Prelude.{Some};
ghost use Rattle.search.specs.Printed.{report_text};

use rate::Vector;
use std::fmt;

/// The candidate held, its vector in quarter samples, its cost, and all trials and strips read since the opening.
#[derive(Clone, Copy, PartialEq, Eq, Debug)]
pub struct Report {
    pub picture: usize,
    pub vector: Vector,
    pub cost: u32,
    pub trials: u64,
    pub strips: u64,
}

/// `PICTURE X Y COST TRIALS STRIPS`, in decimal.
impl fmt::Display for Report {
    ghost output = { λ report. Some (report_text report) };

    fn fmt<W: fmt::Write>(&self, f: &mut fmt::Formatter<W>) -> fmt::Result {
        let picture = self.picture;
        let x = self.vector.x;
        let y = self.vector.y;
        let cost = self.cost;
        let trials = self.trials;
        let strips = self.strips;
        write!(f, "{picture} {x} {y} {cost} {trials} {strips}")
    }
}
