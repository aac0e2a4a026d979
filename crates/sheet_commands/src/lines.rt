// The lines that say what a sheet says.
ghost use Rattle.std.specs.Prelude.{◌≡◌, IfOk, None, Ok, string_bytes};
ghost use Rattle.rules.specs.Sheets.{Sheet};
ghost use Rattle.rules.specs.Reading.{read};
ghost use Rattle.kinds.specs.Formats.{rule_of};
ghost use Rattle.events.specs.Told.{record_of};
ghost use Rattle.tables.specs.Numbers.{number};
ghost use Rattle.sheet_commands.specs.Lines.{row_line, rows_text, record_line, records_text, sheet_text, said_of};

use crate::in_words::InWords;
use events::{Body, Record};
use sheets::{Checked, SheetRecords, check};
use std::alloc::{AllocError, Global};
use std::fmt::Write;
use tables::{Seat, TimeTable};
use walks::RecordIterator;

// The line of row k.
#[tactic(auto, using(crate::proofs::Said::cell_next, std::proofs::lemmas::Grind::common_steps))]
fn say_row(heap: Global, table: &TimeTable, seat: Seat, k: u8) -> Result<String, AllocError>
    ensures { IfOk result (λ s. string_bytes s ≡ row_line (number table.now) seat.sites k) }
{
    let mut text = format!(in heap; "\nrow {k}:")?;
    for u in 1..=seat.sites {
        let number = table.number(k, u);
        write!(text, " {number}")?;
    }
    Ok(text)
}

// The lines of all rows.
#[tactic(auto, using(crate::proofs::Said::row_next, std::proofs::lemmas::Grind::common_steps))]
fn say_rows(heap: Global, table: &TimeTable, seat: Seat) -> Result<String, AllocError>
    ensures { IfOk result (λ s. string_bytes s ≡ rows_text (number table.now) seat.sites) }
{
    let mut text = String::new(heap);
    for k in 1..=seat.sites {
        let line = say_row(heap, table, seat, k)?;
        text.push_str(&line)?;
    }
    Ok(text)
}

// The line of a record.
fn say_record<V: InWords>(heap: Global, x: &Record<V>) -> Result<String, AllocError>
    ensures { IfOk result (λ s. string_bytes s ≡ record_line V.InWords.words (record_of x.now)) }
{
    let at = x.at;
    match x.body {
        Body::Booked(value) => format!(in heap; "\n{at} books {value}"),
        Body::Struck(stamp) => format!(in heap; "\n{at} strikes {stamp}"),
    }
}

// The lines of all records.
fn say_records<V: InWords, R: RecordIterator<V>>(
    heap: Global,
    records: R,
) -> Result<String, AllocError>
    ensures { IfOk result (λ s. string_bytes s ≡ records_text V.InWords.words (R.RecordIterator.coming records)) }
{
    let mut text = String::new(heap);
    for record in records {
        let line = say_record(heap, &record)?;
        text.push_str(&line)?;
    }
    Ok(text)
}

// What a checked sheet says.
fn say_checked<V: InWords>(
    heap: Global,
    seat: Seat,
    checked: Checked,
    bytes: &[u8],
) -> Result<String, AllocError>
    ensures { (p : Sheet V) → read (rule_of V.Kind.format) seat.sites seat.own None bytes.now ≡ Ok p → p.writer ≡ checked.writer → p.table ≡ number checked.table → IfOk result (λ s. string_bytes s ≡ sheet_text V.InWords.words seat.sites p) }
{
    let Checked { writer, table } = checked;
    let own = seat.own;
    let rows = say_rows(heap, &table, seat)?;
    let records = say_records::<V, SheetRecords<V>>(
        heap,
        SheetRecords::new(seat, writer, &table, bytes),
    )?;
    format!(in heap; "sheet from site {writer} for site {own}{rows}{records}")
}

// What is said of bytes as a sheet for this seat.
pub fn say_sheet<V: InWords>(heap: Global, seat: Seat, bytes: &[u8]) -> Result<String, AllocError>
    ensures { IfOk result (λ s. string_bytes s ≡ said_of V.Kind.format V.InWords.words seat.sites seat.own bytes.now) }
{
    match check::<V>(seat, None, bytes) {
        Ok(checked) => say_checked::<V>(heap, seat, checked, bytes),
        Err(x) => x.to_string(heap),
    }
}
