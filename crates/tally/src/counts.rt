//! How many results agree.
ghost use Rattle.std.specs.Prelude.{◌≡◌, Some};
ghost use Rattle.tally.specs.Counts.{counted, tally_text};

use std::fmt;

/// How many results agreed, and how many differed.
#[derive(Clone, Copy, Default, PartialEq, Eq, Debug)]
pub struct Tally {
    pub agreed: u64,
    pub differed: u64,
}

impl Tally {
    /// Counts one comparison.
    pub fn count(&mut self, agrees: bool)
        ensures { self.new ≡ counted self.old agrees }
    {
        if agrees {
            self.agreed = self.agreed.saturating_add(1);
        } else {
            self.differed = self.differed.saturating_add(1);
        }
    }
}

/// `N agree, M differ`.
impl fmt::Display for Tally {
    ghost output = { λ t. Some (tally_text t) };

    fn fmt<W: fmt::Write>(&self, f: &mut fmt::Formatter<W>) -> fmt::Result {
        let agreed = self.agreed;
        let differed = self.differed;
        write!(f, "{agreed} agree, {differed} differ")
    }
}
