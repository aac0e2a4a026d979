// What is wrong with a byte or a number, in words: what the writer of the sheet has to mend.
ghost use Rattle.std.specs.Prelude.{Some};
ghost use Rattle.readers.specs.Words.{head_words, number_words, record_words};

use crate::refusal::{HeadByte, NumberGround, RecordByte};
use std::fmt;

impl fmt::Display for HeadByte {
    ghost output = { λ x. Some (head_words x) };

    fn fmt<W: fmt::Write>(&self, f: &mut fmt::Formatter<W>) -> fmt::Result {
        match self {
            HeadByte::Version => write!(f, "byte 0 is not 1, the version"),
            HeadByte::Sites => write!(f, "byte 1 is not the group's size"),
            HeadByte::Writer => write!(f, "byte 2, the writer, is not another site of the group"),
            HeadByte::Addressee => write!(f, "byte 3, the addressee, is not this site"),
            HeadByte::Kind => write!(f, "byte 4 is not the code of the group's kind"),
        }
    }
}

impl fmt::Display for NumberGround {
    ghost output = { λ x. Some (number_words x) };

    fn fmt<W: fmt::Write>(&self, f: &mut fmt::Formatter<W>) -> fmt::Result {
        match self {
            NumberGround::Million => write!(f, "the table's number is above 1000000"),
            NumberGround::Writer => write!(
                f,
                "the table's number is above the one in the writer's row for this origin"
            ),
            NumberGround::Origin => write!(
                f,
                "the table's number for an origin in its own row is not the one in the writer's row"
            ),
        }
    }
}

impl fmt::Display for RecordByte {
    ghost output = { λ x. Some (record_words x) };

    fn fmt<W: fmt::Write>(&self, f: &mut fmt::Formatter<W>) -> fmt::Result {
        match self {
            RecordByte::First => write!(
                f,
                "a record begins with 1 for a booking or 2 for a strike"
            ),
            RecordByte::StruckSite => write!(f, "the struck stamp's site is not one of the group"),
            RecordByte::StruckNumber => write!(
                f,
                "the struck stamp's number is 0 or above the one in the writer's row for its site"
            ),
        }
    }
}
