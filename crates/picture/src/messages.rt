//! The line that a program prints for a refusal.
ghost use Rattle.std.specs.Prelude.{Some};
ghost use Rattle.picture.specs.Messages.{refusal_text};

use crate::faults::Fault;
use std::error::Error;
use std::fmt;

/// `refused ROW LAYER VALUE`, in decimal.
impl fmt::Display for Fault {
    ghost output = { λ f. Some (refusal_text f) };

    fn fmt<W: fmt::Write>(&self, f: &mut fmt::Formatter<W>) -> fmt::Result {
        let row = u8::from(self.row);
        let layer = u8::from(self.layer);
        let value = self.value;
        write!(f, "refused {row} {layer} {value}")
    }
}

impl Error for Fault {}
