// The front of a sheet: its head and its table.
ghost use Rattle.std.specs.Prelude.{◌≤◌, length};
ghost use Rattle.rules.specs.Sheets.{front_length};

use readers::{NumberGround, SheetRefusal};
use tables::{Row, Seat, TimeTable};

pub mod checking;

// The bytes of a sheet from this writer for this seat, whose head and table are all there.
#[derive(Clone, Copy, PartialEq, Eq, Debug)]
struct Front<'a> {
    seat: Seat,
    writer: u8,
    bytes: &'a [u8],
    ghost whole: { front_length seat.sites ≤ length bytes.now },
}

impl<'a> Front<'a> {
    ghost use Rattle.std.specs.Prelude.{◌≡◌, ◌+◌, nat_le, IfOk, [], ◌∷◌};
    ghost use Rattle.std.specs.Option.{option_map};
    ghost use Rattle.rules.specs.Results.{require, forgotten};
    ghost use Rattle.rules.specs.Stamps.{Within};
    ghost use Rattle.rules.specs.Sheets.{place_of};
    ghost use Rattle.tables.specs.Numbers.{in_row, number};
    ghost use Rattle.readers.specs.declared.refusal.SheetRefusal.TheVariants.{EndsEarly};
    ghost use Rattle.sheets.specs.Judged.{cells_judged, row_judged, table_judged, own_judged};
    ghost use Rattle.sheets.specs.Front.{front_table};
    ghost use Rattle.sheets.specs.Told.{ground_found};

    // The front of a sheet, if it is all there.
    fn new(seat: Seat, writer: u8, bytes: &'a [u8]) -> Result<Front<'a>, SheetRefusal>
        ensures value { forgotten result ≡ require (nat_le (front_length seat.sites) (length bytes.now)) (EndsEarly (length bytes.now)) }
        ensures fields { IfOk result (λ f. (f.seat ≡ seat) × (f.writer ≡ writer) × (f.bytes.now ≡ bytes.now)) }
    {
        if bytes.len() < seat.front_length() {
            return Err(SheetRefusal::EndsEarly {
                length: bytes.len(),
            });
        }
        Ok(Front {
            seat,
            writer,
            bytes,
        })
    }

    // The place of the number for a site and an origin.
    fn place_of(&self, k: u8, u: u8) -> usize
        ensures value { result ≡ place_of self.now.seat.sites k u }
        ensures inside { Within self.now.seat.sites k → Within self.now.seat.sites u → result + 4 ≤ front_length self.now.seat.sites }
    {
        let rows = usize::from(k).saturating_sub(1);
        let numbers = usize::from(u).saturating_sub(1);
        5 + 4 * (rows * usize::from(self.seat.sites) + numbers)
    }

    // The number for a site and an origin, and 0 outside the group.
    fn number(&self, k: u8, u: u8) -> u32
        ensures { result ≡ front_table self.now k u }
    {
        if !self.seat.has(k) || !self.seat.has(u) {
            return 0;
        }
        let bytes = self.bytes;
        let at = self.place_of(k, u);
        // four bytes by index: a slice of them would take a conversion that can fail
        u32::from_be_bytes([bytes[at], bytes[at + 1], bytes[at + 2], bytes[at + 3]])
    }

    // The row of a site.
    fn row(&self, k: u8) -> Row
        ensures { in_row result ≡ front_table self.now k }
    {
        let mut row = Row::empty();
        for u in 1..=self.seat.sites {
            row.set_number(u, self.number(k, u));
        }
        row
    }

    // The table.
    fn table(&self) -> TimeTable
        ensures { number result ≡ front_table self.now }
    {
        let mut table = TimeTable::empty();
        for k in 1..=self.seat.sites {
            table.raise_row(k, &self.row(k));
        }
        table
    }

    // What is wrong with the number for a site and an origin, if anything is.
    fn ground(&self, k: u8, u: u8) -> Option<NumberGround>
        ensures { result ≡ ground_found (front_table self.now) self.now.writer (k, u) }
    {
        let number = self.number(k, u);
        let top = self.number(self.writer, u);
        if number > 1_000_000 {
            return Some(NumberGround::Million);
        }
        if number > top {
            return Some(NumberGround::Writer);
        }
        if k == u && number != top {
            return Some(NumberGround::Origin);
        }
        None
    }

    // The number for a site and an origin is not bad.
    fn check_number(&self, k: u8, u: u8) -> Result<(), SheetRefusal>
        ensures { result ≡ cells_judged self.now.seat.sites self.now.writer (front_table self.now) ((k, u) ∷ []) }
    {
        match self.ground(k, u) {
            Some(ground) => Err(SheetRefusal::Table {
                place: self.place_of(k, u),
                ground,
            }),
            None => Ok(()),
        }
    }

    // The row of a site has no bad number.
    fn check_row(&self, k: u8) -> Result<(), SheetRefusal>
        ensures { result ≡ row_judged self.now.seat.sites self.now.writer (front_table self.now) k }
    {
        (1..=self.seat.sites).try_for_each(|u| self.check_number(k, u))
    }

    // The table has no bad number.
    fn check_table(&self) -> Result<(), SheetRefusal>
        ensures { result ≡ table_judged self.now.seat.sites self.now.writer (front_table self.now) }
    {
        (1..=self.seat.sites).try_for_each(|k| self.check_row(k))
    }

    // The table credits the addressee with no more than its own row, where one is given.
    fn check_own(&self, own: Option<Row>) -> Result<(), SheetRefusal>
        ensures { result ≡ own_judged self.now.seat.sites self.now.seat.own (front_table self.now) (option_map in_row own) }
    {
        let Some(own) = own else {
            return Ok(());
        };
        let beyond = (1..=self.seat.sites).find(|&origin| self.number(self.seat.own, origin)
            > own.number(origin));
        match beyond {
            Some(origin) => Err(SheetRefusal::BeyondOwnRow { origin }),
            None => Ok(()),
        }
    }
}
