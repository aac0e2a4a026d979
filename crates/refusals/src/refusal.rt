ghost use Rattle.std.specs.Prelude.{Some};
ghost use Rattle.refusals.specs.Shown.{refusal_text};

use crate::layer::Layer;
use std::fmt;

// A refusal as it is told: its number, the number that it carries, and the layer that found it.
// The number is the definition's, which every program tells; in the code a refusal is a ground, an enum.
#[derive(Clone, Copy, PartialEq, Eq, Debug)]
pub struct Refusal {
    pub number: u8,
    pub carried: u64,
    pub layer: Layer,
}

impl fmt::Display for Refusal {
    ghost output = { λ x. Some (refusal_text x) };

    fn fmt<W: fmt::Write>(&self, f: &mut fmt::Formatter<W>) -> fmt::Result {
        write!(
            f,
            "refusal {} ({}) by {}",
            self.number, self.carried, self.layer
        )
    }
}
