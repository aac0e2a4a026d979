// Why a site has no place in a group.
ghost use Rattle.std.specs.Prelude.{Some};
ghost use Rattle.tables.specs.Refused.{refusal_of, words_of, seat_refusal_text};

use refusals::{Ground, Layer, Refusal};
use std::fmt;

// Refusal 1, found by the site's layer: it carries 0 if the group's size is out of range, else 1 if the site is not in the group.
#[derive(Clone, Copy, PartialEq, Eq, Debug)]
pub enum SeatRefusal {
    Sites,
    Own,
}

impl Ground for SeatRefusal {
    ghost by_rules = { refusal_of };

    ghost in_words = { words_of };

    fn refusal(self) -> Refusal {
        let carried = match self {
            SeatRefusal::Sites => 0,
            SeatRefusal::Own => 1,
        };
        Refusal {
            number: 1,
            carried,
            layer: Layer::Site,
        }
    }

    fn write_words<W: fmt::Write>(self, f: &mut fmt::Formatter<W>) -> fmt::Result {
        match self {
            SeatRefusal::Sites => write!(f, "a group has 2 to 8 sites"),
            SeatRefusal::Own => write!(f, "the site is not one of the group's"),
        }
    }
}

impl fmt::Display for SeatRefusal {
    ghost output = { λ x. Some (seat_refusal_text x) };

    fn fmt<W: fmt::Write>(&self, f: &mut fmt::Formatter<W>) -> fmt::Result {
        self.write_refusal(f)
    }
}
