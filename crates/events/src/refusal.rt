// Why a stamp is refused.
ghost use Rattle.std.specs.Prelude.{◌≡◌, Some};
ghost use Rattle.events.specs.Refused.{refusal_of, words_of, stamp_refusal_text, stamp_text_refusal_text};
ghost use Rattle.events.specs.declared.refusal.StampTextRefusal.TheVariants.{Range};

use refusals::{Ground, Layer, Refusal};
use std::fmt;

// Refusal 3, found by the site's layer: it carries 0 if the site is out of range, else 1 if the number is.
#[derive(Clone, Copy, PartialEq, Eq, Debug)]
pub enum StampRefusal {
    Site,
    Number,
}

// Why a text is no stamp: it has another form, or the stamp is refused.
#[derive(Clone, Copy, PartialEq, Eq, Debug)]
pub enum StampTextRefusal {
    Form,
    Range(StampRefusal),
}

impl From<StampRefusal> for StampTextRefusal {
    ghost from_gives = { λ x y. y ≡ Range x };

    fn from(x: StampRefusal) -> StampTextRefusal {
        StampTextRefusal::Range(x)
    }
}

impl Ground for StampRefusal {
    ghost by_rules = { refusal_of };

    ghost in_words = { words_of };

    fn refusal(self) -> Refusal {
        let carried = match self {
            StampRefusal::Site => 0,
            StampRefusal::Number => 1,
        };
        Refusal {
            number: 3,
            carried,
            layer: Layer::Site,
        }
    }

    fn write_words<W: fmt::Write>(self, f: &mut fmt::Formatter<W>) -> fmt::Result {
        match self {
            StampRefusal::Site => write!(f, "the stamp's site is not 1 to 8"),
            StampRefusal::Number => write!(f, "the stamp's number is not 1 to 1000000"),
        }
    }
}

impl fmt::Display for StampRefusal {
    ghost output = { λ x. Some (stamp_refusal_text x) };

    fn fmt<W: fmt::Write>(&self, f: &mut fmt::Formatter<W>) -> fmt::Result {
        self.write_refusal(f)
    }
}

impl fmt::Display for StampTextRefusal {
    ghost output = { λ x. Some (stamp_text_refusal_text x) };

    fn fmt<W: fmt::Write>(&self, f: &mut fmt::Formatter<W>) -> fmt::Result {
        match self {
            StampTextRefusal::Form => write!(f, "no stamp: write SITE.NUMBER, as 3.1"),
            StampTextRefusal::Range(x) => write!(f, "{x}"),
        }
    }
}
