// What is printed for a line that looks at a sheet.
ghost use Rattle.std.specs.Prelude.{◌≡◌, IfOk, string_bytes};
ghost use Rattle.std.specs.Option.{option_map};
ghost use Rattle.sheet_commands.specs.Words.{number_up_to};
ghost use Rattle.sheet_commands.specs.Answers.{usage_text, seat_read, seat_shown, seat_said, sheet_answer, file_name_of, file_answer};

use crate::lines::say_sheet;
use crate::problem::{BadWord, Problem};
use crate::words::{number, words_up_to};
use kinds::{Booking, Notice};
use std::alloc::{AllocError, Global};
use tables::{Seat, SeatRefusal};
use text::{cut_word, hex_bytes};

// How the commands are written.
const USAGE: &str =
    "usage: sheet N SITE KIND HEX, or sheet-file N SITE KIND PATH; KIND is booking or notice";

// How the commands are written, as a string.
pub fn say_usage(heap: Global) -> Result<String, AllocError>
    ensures { IfOk result (λ s. string_bytes s ≡ usage_text) }
{
    String::from_str(heap, USAGE)
}

// A group's size or a site; a number that is too large reads as 255, which no group has.
fn site_number(word: &[u8]) -> Result<u8, BadWord>
    ensures { result ≡ number_up_to 255 word.now }
{
    Ok(u8::try_from(number(word)?).unwrap_or(u8::MAX))
}

// The seat that two words name.
fn seat_of(sites: &[u8], own: &[u8]) -> Result<Seat, Problem<SeatRefusal>>
    ensures { seat_shown result ≡ seat_read sites.now own.now }
{
    let sites = site_number(sites)?;
    let own = site_number(own)?;
    Ok(Seat::new(sites, own)?)
}

// What is said of bytes as a sheet for a seat, of the kind that the word names.
fn say(
    heap: Global,
    seat: Result<Seat, Problem<SeatRefusal>>,
    kind: &[u8],
    bytes: &[u8],
) -> Result<String, AllocError>
    ensures { IfOk result (λ s. string_bytes s ≡ seat_said (seat_shown seat) kind.now bytes.now) }
{
    let seat = match seat {
        Ok(seat) => seat,
        Err(x) => return x.to_string(heap),
    };
    match kind {
        b"booking" => say_sheet::<Booking>(heap, seat, bytes),
        b"notice" => say_sheet::<Notice>(heap, seat, bytes),
        _ => say_usage(heap),
    }
}

// `sheet N SITE KIND HEX`: what the sheet says, or why it is turned away.
pub fn answer_sheet(heap: Global, rest: &[u8]) -> Result<String, AllocError>
    ensures { IfOk result (λ s. string_bytes s ≡ sheet_answer rest.now) }
{
    let [sites, own, kind, digits, more, _] = words_up_to(rest, 5);
    if digits.is_empty() || !more.is_empty() {
        return say_usage(heap);
    }
    match hex_bytes(heap, digits)? {
        Some(bytes) => say(heap, seat_of(sites, own), kind, &bytes),
        None => BadWord::Hexadecimal.to_string(heap),
    }
}

// The path of a line `sheet-file N SITE KIND PATH`.
pub fn file_named(line: &[u8]) -> Option<&[u8]>
    ensures { option_map (λ p. p.now) result ≡ file_name_of line.now }
{
    // behind another first word nothing is read
    let (word, rest) = cut_word(line);
    if word == b"sheet-file".as_slice() {
        let [_, _, _, path, more, _] = words_up_to(rest, 5);
        if !path.is_empty() && more.is_empty() {
            return Some(path);
        }
    }
    None
}

// What is said for such a line when the file holds these bytes.
pub fn answer_file(heap: Global, line: &[u8], bytes: &[u8]) -> Result<String, AllocError>
    ensures { IfOk result (λ s. string_bytes s ≡ file_answer line.now bytes.now) }
{
    let [_, sites, own, kind, ..] = words_up_to(line, 4);
    say(heap, seat_of(sites, own), kind, bytes)
}
