// Why a sheet cannot be written.
ghost use Rattle.std.specs.Prelude.{Some};
ghost use Rattle.writing.specs.Refused.{refusal_of, words_of, short_buffer_text};

use refusals::{Ground, Layer, Refusal};
use std::fmt;

// Refusal 9, found by the site's layer: the buffer is too short; it carries the length needed.
#[derive(Clone, Copy, PartialEq, Eq, Debug)]
pub struct ShortBuffer {
    pub needed: usize,
}

impl Ground for ShortBuffer {
    ghost by_rules = { refusal_of };

    ghost in_words = { words_of };

    fn refusal(self) -> Refusal {
        Refusal {
            number: 9,
            carried: self.needed as u64,
            layer: Layer::Site,
        }
    }

    fn write_words<W: fmt::Write>(self, f: &mut fmt::Formatter<W>) -> fmt::Result {
        write!(f, "the buffer is too short")
    }
}

impl fmt::Display for ShortBuffer {
    ghost output = { λ x. Some (short_buffer_text x) };

    fn fmt<W: fmt::Write>(&self, f: &mut fmt::Formatter<W>) -> fmt::Result {
        self.write_refusal(f)
    }
}
