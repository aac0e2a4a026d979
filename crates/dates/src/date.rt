// Dates.
ghost use Rattle.std.specs.Prelude.{Some};
ghost use Rattle.dates.specs.Days.{date_text};

use std::fmt;

// A date as it is written: a year, a month and a day of the month. `day_of` says whether there is such a date.
#[derive(Clone, Copy, PartialEq, Eq, PartialOrd, Ord, Hash, Debug)]
pub struct Date {
    pub year: u32,
    pub month: u8,
    pub day: u8,
}

impl fmt::Display for Date {
    ghost output = { λ t. Some (date_text t) };

    fn fmt<W: fmt::Write>(&self, f: &mut fmt::Formatter<W>) -> fmt::Result {
        let Date { year, month, day } = *self;
        write!(f, "{year}-{month:02}-{day:02}")
    }
}
