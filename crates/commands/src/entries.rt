// Entries that are written in words, or in hexadecimal digits.
ghost use Rattle.std.specs.Prelude.{◌≡◌};
ghost use Rattle.std.specs.Option.{option_map};
ghost use Rattle.sheet_commands.specs.Words.{number_up_to};
ghost use Rattle.commands.specs.Entries.{day_read, booking_read, line_out_read, word_read, entry_of};

use dates::{day_of, read_date};
use kinds::{Booking, EntryRefusal, Kind, Notice, Work};
use sheet_commands::{BadWord, Problem, number};
use text::decimal;

pub mod answers;

// A day, by its number or its date; a number that is too large reads as the largest.
fn day(word: &[u8]) -> Result<u16, BadWord>
    ensures { result ≡ day_read word.now }
{
    match decimal(word) {
        Some(n) => Ok(u16::try_from(n).unwrap_or(u16::MAX)),
        None => read_date(word)
            .and_then(|date| day_of(date))
            .ok_or(BadWord::Day),
    }
}

// A line; a number that is too large reads as the largest.
fn line_number(word: &[u8]) -> Result<u16, BadWord>
    ensures { result ≡ number_up_to 65535 word.now }
{
    Ok(u16::try_from(number(word)?).unwrap_or(u16::MAX))
}

// A booking by its five words.
fn booking(
    line: &[u8],
    first: &[u8],
    last: &[u8],
    work: &[u8],
    crew: &[u8],
) -> Result<Booking, Problem<EntryRefusal>>
    ensures { result ≡ booking_read line.now first.now last.now work.now crew.now }
{
    let line = line_number(line)?;
    let first = day(first)?;
    let last = day(last)?;
    let work = Work::named(work).ok_or(BadWord::Work)?;
    let crew = u8::try_from(number(crew)?).unwrap_or(u8::MAX);
    Ok(Booking::new(line, first, last, work, crew)?)
}

// A notice that a line is out on a day, by its two words.
fn line_out(line: &[u8], on: &[u8]) -> Result<Notice, Problem<EntryRefusal>>
    ensures { result ≡ line_out_read line.now on.now }
{
    let line = line_number(line)?;
    let on = day(on)?;
    Ok(Notice::line_out(line, on)?)
}

// A notice of four letters.
fn word(letters: &[u8]) -> Result<Notice, Problem<EntryRefusal>>
    ensures { result ≡ word_read letters.now }
{
    let [a, b, c, d] = letters else {
        return Err(Problem::Word(BadWord::Letters));
    };
    Ok(Notice::word(*a, *b, *c, *d)?)
}

// The entry of a kind that bytes stand for, if digits wrote them.
fn entry<K: Kind>(bytes: Option<&[u8]>) -> Result<K, Problem<EntryRefusal>>
    ensures { result ≡ entry_of K.Kind.format (option_map (λ bs. bs.now) bytes.entry) }
{
    let bytes = bytes.ok_or(BadWord::Hexadecimal)?;
    Ok(K::decode(bytes)?)
}
