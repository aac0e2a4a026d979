// Why a command's words cannot be read.
ghost use Rattle.std.specs.Prelude.{◌≡◌, Some};
ghost use Rattle.sheet_commands.specs.Problems.{word_text, problem_output};
ghost use Rattle.sheet_commands.specs.declared.problem.Problem.TheVariants.{Word, Refused};

use kinds::EntryRefusal;
use std::fmt;
use tables::SeatRefusal;

// A word that is not what is asked for.
#[derive(Clone, Copy, PartialEq, Eq, Debug)]
pub enum BadWord {
    // no decimal digits
    Number,
    // neither a day number nor a date that the calendar knows
    Day,
    // no name of a work
    Work,
    // no hexadecimal digits, two for each byte
    Hexadecimal,
    // not four letters
    Letters,
}

impl fmt::Display for BadWord {
    ghost output = { λ x. Some (word_text x) };

    fn fmt<W: fmt::Write>(&self, f: &mut fmt::Formatter<W>) -> fmt::Result {
        match self {
            BadWord::Number => write!(f, "no number: write decimal digits"),
            BadWord::Day => write!(
                f,
                "no day: write a number, or a date from 2000-01-01 to 2099-12-31"
            ),
            BadWord::Work => write!(f, "no work: write retrofit, trial or freeze"),
            BadWord::Hexadecimal => write!(f, "no bytes: write two hexadecimal digits for each"),
            BadWord::Letters => write!(f, "no word: write four letters"),
        }
    }
}

// What is wrong with a command: a word, or what its words make is refused.
#[derive(Clone, Copy, PartialEq, Eq, Debug)]
pub enum Problem<R> {
    Word(BadWord),
    Refused(R),
}

impl<R> From<BadWord> for Problem<R> {
    ghost from_gives = { λ x y. y ≡ Word x };

    fn from(x: BadWord) -> Problem<R> {
        Problem::Word(x)
    }
}

// One impl for each refusal: one for every R would also be one for a word.
impl From<SeatRefusal> for Problem<SeatRefusal> {
    ghost from_gives = { λ x y. y ≡ Refused x };

    fn from(x: SeatRefusal) -> Problem<SeatRefusal> {
        Problem::Refused(x)
    }
}

impl From<EntryRefusal> for Problem<EntryRefusal> {
    ghost from_gives = { λ x y. y ≡ Refused x };

    fn from(x: EntryRefusal) -> Problem<EntryRefusal> {
        Problem::Refused(x)
    }
}

impl<R: fmt::Display> fmt::Display for Problem<R> {
    ghost output = { problem_output R.output };

    fn fmt<W: fmt::Write>(&self, f: &mut fmt::Formatter<W>) -> fmt::Result {
        match self {
            Problem::Word(x) => write!(f, "{x}"),
            Problem::Refused(x) => write!(f, "{x}"),
        }
    }
}
