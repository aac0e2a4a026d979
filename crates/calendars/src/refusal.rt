// Why a calendar refuses.
ghost use Rattle.std.specs.Prelude.{Some};
ghost use Rattle.calendars.specs.Refused.{refusal_of, words_of, calendar_refusal_text};

use refusals::{Ground, Layer, Refusal};
use std::fmt;

// Refusal 22, which carries how many entries there would be, and 23, which carries the number of a stamp that cannot be struck.
#[derive(Clone, Copy, PartialEq, Eq, Debug)]
pub enum CalendarRefusal {
    Full { count: usize },
    NoEntry { number: u32 },
}

impl Ground for CalendarRefusal {
    ghost by_rules = { refusal_of };

    ghost in_words = { words_of };

    fn refusal(self) -> Refusal {
        let (number, carried) = match self {
            CalendarRefusal::Full { count } => (22, count as u64),
            CalendarRefusal::NoEntry { number } => (23, u64::from(number)),
        };
        Refusal {
            number,
            carried,
            layer: Layer::Calendar,
        }
    }

    fn write_words<W: fmt::Write>(self, f: &mut fmt::Formatter<W>) -> fmt::Result {
        match self {
            CalendarRefusal::Full { .. } => write!(f, "the calendar has no room"),
            CalendarRefusal::NoEntry { .. } => write!(
                f,
                "no entry that can be struck has the stamp"
            ),
        }
    }
}

impl fmt::Display for CalendarRefusal {
    ghost output = { λ x. Some (calendar_refusal_text x) };

    fn fmt<W: fmt::Write>(&self, f: &mut fmt::Formatter<W>) -> fmt::Result {
        self.write_refusal(f)
    }
}
