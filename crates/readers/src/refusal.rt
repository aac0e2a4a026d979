// Why a sheet is turned away.
ghost use Rattle.std.specs.Prelude.{◌≡◌, Some};
ghost use Rattle.refusals.specs.Shown.{told};
ghost use Rattle.readers.specs.Refused.{refusal_of};
ghost use Rattle.readers.specs.Words.{words_of, sheet_refusal_text};
ghost use Rattle.rules.specs.Refusals.{plain, sheet};

use kinds::EntryRefusal;
use refusals::{Ground, Layer, Refusal};
use std::fmt;

mod words;

// The bytes of a sheet's head, numbered by their places.
#[derive(Clone, Copy, PartialEq, Eq, Debug)]
pub enum HeadByte {
    Version,
    Sites,
    Writer,
    Addressee,
    Kind,
}

// What is wrong with a number of the table.
#[derive(Clone, Copy, PartialEq, Eq, Debug)]
pub enum NumberGround {
    // it is above 1,000,000
    Million,
    // it is above the writer's for its origin
    Writer,
    // it is the origin's own, and the writer's is larger
    Origin,
}

// A field of a record that is bad.
#[derive(Clone, Copy, PartialEq, Eq, Debug)]
pub enum RecordByte {
    First,
    StruckSite,
    StruckNumber,
}

// Refusals 4 to 8, found by the sheet's layer, and 20, found by the site's.
#[derive(Clone, Copy, PartialEq, Eq, Debug)]
pub enum SheetRefusal {
    // 4: the sheet ends early; it carries its length
    EndsEarly { length: usize },
    // 5: a bad byte of the head; its place
    Head(HeadByte),
    // 6: a bad number of the table; its place
    Table { place: usize, ground: NumberGround },
    // 7: a bad field of a record; its place
    Record { place: usize, byte: RecordByte },
    // 7: an unlawful entry; the place where the entry's own refusal points, and that refusal
    Entry { place: usize, inner: EntryRefusal },
    // 8: bytes behind the last record; the first one's place
    BytesBehind { place: usize },
    // 20: the sheet credits its addressee with more than the addressee's own row has; the lowest such origin
    BeyondOwnRow { origin: u8 },
}

// A refusal of the sheet's layer.
fn by_sheet(number: u8, carried: usize) -> Refusal
    ensures { result ≡ told (plain number carried sheet) }
{
    Refusal {
        number,
        carried: carried as u64,
        layer: Layer::Sheet,
    }
}

impl Ground for SheetRefusal {
    ghost by_rules = { refusal_of };

    ghost in_words = { words_of };

    fn refusal(self) -> Refusal {
        match self {
            SheetRefusal::EndsEarly { length } => by_sheet(4, length),
            SheetRefusal::Head(byte) => by_sheet(5, byte as usize),
            SheetRefusal::Table { place, .. } => by_sheet(6, place),
            SheetRefusal::Record { place, .. } | SheetRefusal::Entry { place, .. } => by_sheet(
                7, place,
            ),
            SheetRefusal::BytesBehind { place } => by_sheet(8, place),
            SheetRefusal::BeyondOwnRow { origin } => Refusal {
                number: 20,
                carried: u64::from(origin),
                layer: Layer::Site,
            },
        }
    }

    fn write_words<W: fmt::Write>(self, f: &mut fmt::Formatter<W>) -> fmt::Result {
        match self {
            SheetRefusal::EndsEarly { .. } => write!(
                f,
                "the sheet ends before all is there that its head and table announce"
            ),
            SheetRefusal::Head(byte) => write!(f, "{byte}"),
            SheetRefusal::Table { ground, .. } => write!(f, "{ground}"),
            SheetRefusal::Record { byte, .. } => write!(f, "{byte}"),
            SheetRefusal::Entry { inner, .. } => write!(f, "the entry is not lawful: {inner}"),
            SheetRefusal::BytesBehind { .. } => write!(
                f,
                "bytes stand behind the last record that the table announces"
            ),
            SheetRefusal::BeyondOwnRow { .. } => write!(
                f,
                "the table credits this site with events of that origin that it does not have"
            ),
        }
    }
}

impl fmt::Display for SheetRefusal {
    ghost output = { λ x. Some (sheet_refusal_text x) };

    fn fmt<W: fmt::Write>(&self, f: &mut fmt::Formatter<W>) -> fmt::Result {
        self.write_refusal(f)
    }
}
