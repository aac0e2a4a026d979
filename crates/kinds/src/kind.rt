// What a kind of entry is.
ghost use Rattle.std.specs.Prelude.{◌≡◌, ℕ, length};
ghost use Rattle.rules.specs.Kinds.{LawfulKind};
ghost use Rattle.kinds.specs.Formats.{Format, rule_of, padded};

use crate::refusal::{EntryRefusal, Field};

// The highest line; the lowest is 1.
pub(crate) const LAST_LINE: u16 = 999;

// The last day, 2099-12-31; the first is 0.
pub(crate) const LAST_DAY: u16 = 36_524;

// A kind of entry; `Self` is the type of its values.
pub trait Kind: Sized {
    // the code byte, the width, the bytes of each value, and what bytes stand for
    ghost format: { Format Self };

    // The code byte.
    const CODE: u8;

    ghost CODE: { ℕ };

    // How many bytes an entry has.
    const WIDTH: usize;

    ghost WIDTH: { ℕ };

    // One of the values.
    fn sample() -> Self
        ensures { result ≡ format.sample };

    // The value that bytes stand for.
    fn decode(bytes: &[u8]) -> Result<Self, EntryRefusal>
        ensures { result ≡ format.decoded bytes.now };

    // The bytes that stand for the value, and zeros behind them: no kind is wider.
    fn encode(&self) -> [u8; 16]
        ensures { result ≡ padded (format.encoded self.now) };

    // values and lawful byte strings match one to one
    ghost lawful: { LawfulKind (rule_of format) };

    // the constants are those of the format
    ghost code_agrees: { CODE ≡ format.code };

    ghost width_agrees: { WIDTH ≡ format.width };
}

impl Field {
    // The refusal of an entry for this field, whose first byte stands at a place.
    pub(crate) fn bad_at(self, place: usize) -> EntryRefusal
        ensures { result ≡ EntryRefusal.Field self place }
    {
        EntryRefusal::Field { field: self, place }
    }
}

impl EntryRefusal {
    // The refusal of bytes that are more or fewer than an entry has.
    pub(crate) fn bad_length(bytes: &[u8], width: usize) -> EntryRefusal
        ensures { result ≡ EntryRefusal.Length (length bytes.now) width }
    {
        EntryRefusal::Length {
            length: bytes.len(),
            width,
        }
    }
}
