ghost use Rattle.std.specs.Prelude.{ℕ, ◌<◌, ◌≤◌};
ghost use Rattle.tables.specs.Numbers.{in_row};
ghost use Rattle.readers.specs.Capped.{capped};

use readers::{Reader, Writer};
use std::marker::PhantomData;
use tables::Row;

pub mod stamps;
pub mod walk;

// The stamps of a sheet's records, origin by origin: of each origin the writer knows so many events, and so many are done.
// Of the origins before the one at hand no event is left, so none of them is looked at again.
#[derive(Clone, Copy, PartialEq, Eq, Debug)]
struct StampsLeft {
    writer: Writer,
    done: Row,
    at: u8,
    ghost begun: { 1 ≤ at },
    ghost passed: { (u : ℕ) → 1 ≤ u → u < at → capped (in_row writer.known) u ≤ capped (in_row done) u },
}

// The records of a sheet: their stamps, and what the sheet has from its reader's place on.
#[derive(Clone, Copy, PartialEq, Eq, Debug)]
pub struct SheetRecords<'a, V> {
    stamps: StampsLeft,
    reader: Reader<'a>,
    kind: PhantomData<V>,
}
