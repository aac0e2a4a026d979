// Why bytes are no entry.
ghost use Rattle.std.specs.Prelude.{◌≡◌, Some};
ghost use Rattle.kinds.specs.Refused.{unlawful_of, refusal_of, field_text, words_of, entry_refusal_text};

use refusals::{Ground, Layer, Refusal};
use std::fmt;

// A field of an entry.
#[derive(Clone, Copy, PartialEq, Eq, Debug)]
pub enum Field {
    Line,
    FirstDay,
    LastDay,
    Work,
    Crew,
    Tag,
    Day,
    Letter,
}

// Refusal 2, found by the kind's layer: it carries the smaller of length and width if these differ, else the place of the first bad field.
#[derive(Clone, Copy, PartialEq, Eq, Debug)]
pub enum EntryRefusal {
    Length { length: usize, width: usize },
    Field { field: Field, place: usize },
}

impl fmt::Display for Field {
    ghost output = { λ x. Some (field_text x) };

    fn fmt<W: fmt::Write>(&self, f: &mut fmt::Formatter<W>) -> fmt::Result {
        match self {
            Field::Line => write!(f, "the line is not 1 to 999"),
            Field::FirstDay => write!(f, "the first day is not 0 to 36524"),
            Field::LastDay => write!(f, "the last day is not from the first day to 36524"),
            Field::Work => write!(f, "the work is not 1, 2 or 3"),
            Field::Crew => write!(f, "the crew is not 0 to 99"),
            Field::Tag => write!(f, "the tag is not 1 or 3"),
            Field::Day => write!(f, "the day is not 0 to 36524"),
            Field::Letter => write!(f, "a letter is not A to Z"),
        }
    }
}

impl EntryRefusal {
    // The place in the entry that it carries.
    pub fn place(self) -> usize
        ensures { result ≡ (unlawful_of self).place }
    {
        match self {
            EntryRefusal::Length { length, width } => length.min(width),
            EntryRefusal::Field { place, .. } => place,
        }
    }
}

impl Ground for EntryRefusal {
    ghost by_rules = { refusal_of };

    ghost in_words = { words_of };

    fn refusal(self) -> Refusal {
        Refusal {
            number: 2,
            carried: self.place() as u64,
            layer: Layer::Kind,
        }
    }

    fn write_words<W: fmt::Write>(self, f: &mut fmt::Formatter<W>) -> fmt::Result {
        match self {
            EntryRefusal::Length { length, width } => {
                write!(f, "the entry has {length} bytes and needs {width}")
            }
            EntryRefusal::Field { field, .. } => write!(f, "{field}"),
        }
    }
}

impl fmt::Display for EntryRefusal {
    ghost output = { λ x. Some (entry_refusal_text x) };

    fn fmt<W: fmt::Write>(&self, f: &mut fmt::Formatter<W>) -> fmt::Result {
        self.write_refusal(f)
    }
}
