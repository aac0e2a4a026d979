// What is printed for a line.
ghost use Rattle.std.specs.Prelude.{◌≡◌, IfOk, string_bytes};
ghost use Rattle.text.specs.Hexadecimals.{hex_text_of};
ghost use Rattle.commands.specs.Answers.{entry_said, entry_answer, booking_answer, notice_answer, stamp_answer, answer_of};
ghost use Rattle.commands.specs.Entries.{entry_read};
ghost use Rattle.commands.specs.Texts.{bytes_text, said};

use crate::entries::{booking, entry, line_out, word};
use crate::usage::Usage;
use events::Stamp;
use kinds::{Booking, EntryRefusal, Kind, Notice};
use sheet_commands::{InWords, Problem, answer_sheet, first_words, say_usage, words_up_to};
use std::alloc::{AllocError, Global};
use text::{cut_word, hex_bytes, hex_text};

// The bytes of a value in hexadecimal digits.
fn digits_of<K: Kind>(heap: Global, value: &K) -> Result<String, AllocError>
    ensures { IfOk result (λ s. string_bytes s ≡ hex_text_of (K.Kind.format.encoded value.now)) }
{
    let bytes = value.encode();
    hex_text(heap, &bytes[..K::WIDTH])
}

// What is said of an entry whose bytes are asked for.
fn say_bytes<K: Kind + Drop>(
    heap: Global,
    entry: Result<K, Problem<EntryRefusal>>,
) -> Result<String, AllocError>
    ensures { IfOk result (λ s. string_bytes s ≡ bytes_text K.Kind.format entry) }
{
    match entry {
        Ok(v) => digits_of(heap, &v),
        Err(x) => x.to_string(heap),
    }
}

// What is said of an entry that digits write and whose words are asked for.
fn say_words<K: InWords>(heap: Global, digits: &[u8]) -> Result<String, AllocError>
    ensures { IfOk result (λ s. string_bytes s ≡ said K.InWords.words (entry_read K.Kind.format digits.now)) }
{
    let bytes = hex_bytes(heap, digits)?;
    match entry::<K>(bytes.as_deref()) {
        Ok(v) => v.to_string(heap),
        Err(x) => x.to_string(heap),
    }
}

// What is said of an entry of the kind that the word names.
fn say_entry(heap: Global, kind: &[u8], digits: &[u8]) -> Result<String, AllocError>
    ensures { IfOk result (λ s. string_bytes s ≡ entry_said kind.now digits.now) }
{
    match kind {
        b"booking" => say_words::<Booking>(heap, digits),
        b"notice" => say_words::<Notice>(heap, digits),
        _ => Usage::Entry.to_string(heap),
    }
}

// `entry KIND HEX`: the entry in words.
fn answer_entry(heap: Global, rest: &[u8]) -> Result<String, AllocError>
    ensures { IfOk result (λ s. string_bytes s ≡ entry_answer rest.now) }
{
    let [kind, digits, more, ..] = words_up_to(rest, 3);
    if !more.is_empty() {
        return Usage::Entry.to_string(heap);
    }
    say_entry(heap, kind, digits)
}

// `booking LINE FIRST LAST WORK CREW`: the bytes of the booking.
fn answer_booking(heap: Global, rest: &[u8]) -> Result<String, AllocError>
    ensures { IfOk result (λ s. string_bytes s ≡ booking_answer rest.now) }
{
    let [line, first, last, work, crew, more] = first_words(rest);
    if crew.is_empty() || !more.is_empty() {
        return Usage::Booking.to_string(heap);
    }
    say_bytes(heap, booking(line, first, last, work, crew))
}

// `notice out LINE DAY` or `notice word WORD`: the bytes of the notice.
fn answer_notice(heap: Global, rest: &[u8]) -> Result<String, AllocError>
    ensures { IfOk result (λ s. string_bytes s ≡ notice_answer rest.now) }
{
    let [form, first, second, more, ..] = words_up_to(rest, 4);
    if !more.is_empty() {
        return Usage::Notice.to_string(heap);
    }
    // by `==`: a `match` with this guard, or on both words, is not proved at its last arm
    if form == b"out".as_slice() {
        say_bytes(heap, line_out(first, second))
    } else if form == b"word".as_slice() && second.is_empty() {
        say_bytes(heap, word(first))
    } else {
        Usage::Notice.to_string(heap)
    }
}

// `stamp SITE.NUMBER`: the stamp, checked.
fn answer_stamp(heap: Global, rest: &[u8]) -> Result<String, AllocError>
    ensures { IfOk result (λ s. string_bytes s ≡ stamp_answer rest.now) }
{
    let [text, more, ..] = words_up_to(rest, 2);
    if !more.is_empty() {
        return Usage::Stamp.to_string(heap);
    }
    match Stamp::try_from(text) {
        Ok(stamp) => {
            let site = stamp.site();
            let number = stamp.number();
            format!(in heap; "site {site}, event {number}")
        }
        Err(x) => x.to_string(heap),
    }
}

// What is printed for a line; nothing for one without words and for a comment.
pub fn answer(heap: Global, line: &[u8]) -> Result<String, AllocError>
    ensures { IfOk result (λ s. string_bytes s ≡ answer_of line.now) }
{
    let (word, rest) = cut_word(line);
    // by `==`: at the last arm of a `match` on so many words the proof does not close
    if word == b"entry".as_slice() {
        answer_entry(heap, rest)
    } else if word == b"booking".as_slice() {
        answer_booking(heap, rest)
    } else if word == b"notice".as_slice() {
        answer_notice(heap, rest)
    } else if word == b"stamp".as_slice() {
        answer_stamp(heap, rest)
    } else if word == b"sheet".as_slice() {
        answer_sheet(heap, rest)
    } else if word == b"sheet-file".as_slice() {
        // one with a path is answered by what the file holds
        say_usage(heap)
    } else if word == b"help".as_slice() {
        Usage::All.to_string(heap)
    } else if matches!(word, [] | [b'#', ..]) {
        Ok(String::new(heap))
    } else {
        Usage::Unknown.to_string(heap)
    }
}
