// Notices: five bytes, code 2.
ghost use Rattle.std.specs.Prelude.{◌≡◌, refl, not, Some};
ghost use Rattle.std.specs.Char.{is_ascii_uppercase};
ghost use Rattle.std.specs.List.{position};
ghost use Rattle.kinds.specs.Notices.{line_out_from, word_from, notice_text, notices};
ghost use Rattle.kinds.specs.Noticed.{notices_lawful};

use crate::kind::{Kind, LAST_DAY, LAST_LINE};
use crate::notice::{LineOut, Notice, Word};
use crate::refusal::{EntryRefusal, Field};
use dates::date_of;
use std::fmt;

// The tag of a notice that a line is out.
const LINE_OUT: u8 = 1;

// The tag of a notice of four letters.
const WORD: u8 = 3;

// The place of the first byte that is no letter.
fn first_no_letter(bytes: &[u8]) -> Option<usize>
    ensures { result ≡ position (λ x. not (is_ascii_uppercase x)) bytes.now }
{
    bytes.iter().position(|b| !b.is_ascii_uppercase())
}

impl Notice {
    // The notice that a line is out on a day.
    pub fn line_out(line: u16, day: u16) -> Result<Notice, EntryRefusal>
        ensures { result ≡ line_out_from line day }
    {
        if !(1..=LAST_LINE).contains(&line) {
            return Err(Field::Line.bad_at(1));
        }
        if day > LAST_DAY {
            return Err(Field::Day.bad_at(3));
        }
        Ok(Notice::LineOut(LineOut { line, day }))
    }

    // The notice of four letters.
    pub fn word(a: u8, b: u8, c: u8, d: u8) -> Result<Notice, EntryRefusal>
        ensures { result ≡ word_from a b c d }
    {
        let letters = [a, b, c, d];
        match first_no_letter(&letters) {
            Some(n) => Err(Field::Letter.bad_at(n + 1)),
            None => Ok(Notice::Word(Word { letters })),
        }
    }
}

impl Kind for Notice {
    ghost format = { notices };

    ghost lawful = { notices_lawful };

    ghost code_agrees = { refl };

    ghost width_agrees = { refl };

    const CODE: u8 = 2;

    ghost CODE = { 2 };

    const WIDTH: usize = 5;

    ghost WIDTH = { 5 };

    fn sample() -> Notice {
        Notice::LineOut(LineOut { line: 1, day: 0 })
    }

    fn decode(bytes: &[u8]) -> Result<Notice, EntryRefusal> {
        let [tag, a, b, c, d] = bytes else {
            return Err(EntryRefusal::bad_length(bytes, Self::WIDTH));
        };
        match *tag {
            LINE_OUT => Notice::line_out(
                u16::from_be_bytes([*a, *b]),
                u16::from_be_bytes([*c, *d]),
            ),
            WORD => Notice::word(*a, *b, *c, *d),
            _ => Err(Field::Tag.bad_at(0)),
        }
    }

    fn encode(&self) -> [u8; 16] {
        let mut bytes = [0; 16];
        match self {
            Notice::LineOut(x) => {
                bytes[0] = LINE_OUT;
                bytes[1..3].copy_from_slice(&x.line.to_be_bytes());
                bytes[3..5].copy_from_slice(&x.day.to_be_bytes());
            }
            Notice::Word(w) => {
                bytes[0] = WORD;
                bytes[1..5].copy_from_slice(&w.letters);
            }
        }
        bytes
    }
}

impl Word {
    // The letters as a text.
    fn as_str(&self) -> &str
        ensures { result.now ≡ self.now.letters }
    {
        str::from_utf8(&self.letters).unwrap()
    }
}

impl fmt::Display for Notice {
    ghost output = { λ n. Some (notice_text n) };

    fn fmt<W: fmt::Write>(&self, f: &mut fmt::Formatter<W>) -> fmt::Result {
        match self {
            Notice::LineOut(x) => write!(f, "line {} out on {}", x.line, date_of(x.day)),
            Notice::Word(w) => write!(f, "word {}", w.as_str()),
        }
    }
}
