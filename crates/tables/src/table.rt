// The time table of a site: its rows and their numbers.
ghost use Rattle.std.specs.Prelude.{◌≡◌, length};

use crate::seat::Seat;
use crate::table::index::index_of;

pub mod index;

// For each origin, 1 to 8, how many of its events one site is credited with.
#[derive(Clone, Copy, PartialEq, Eq, Debug)]
pub struct Row {
    numbers: [u32; 8],
    ghost long: { length numbers ≡ 8 },
}

// The rows of the sites 1 to 8.
#[derive(Clone, Copy, PartialEq, Eq, Debug)]
pub struct TimeTable {
    rows: [Row; 8],
    ghost long: { length rows ≡ 8 },
}

impl Row {
    ghost use Rattle.rules.specs.Stamps.{Within};
    ghost use Rattle.tables.specs.Numbers.{in_row, row_with, larger};

    // The row of a site that is credited with nothing. Its name says what a Default would leave open.
    pub fn empty() -> Row
        ensures { in_row result ≡ (λ _. 0) }
    {
        Row { numbers: [0; 8] }
    }

    // The number for an origin, and 0 outside.
    pub fn number(&self, u: u8) -> u32
        ensures { result ≡ in_row self.now u }
    {
        match index_of(u) {
            Some(index) => self.numbers[index],
            None => 0,
        }
    }

    // The number for an origin becomes n; outside nothing changes.
    pub fn set_number(&mut self, u: u8, n: u32)
        ensures inside { Within 8 u → in_row self.new ≡ row_with (in_row self.old) u n }
        ensures outside { (Within 8 u → ⊥) → self.new ≡ self.old }
    {
        if let Some(index) = index_of(u) {
            self.numbers[index] = n;
        }
    }

    // Each number becomes the larger of the two.
    fn raise(&mut self, other: &Row)
        ensures { in_row self.new ≡ larger (in_row self.old) (in_row other.now) }
    {
        // By the index: after a zip of `iter_mut` the check knows no element.
        for (index, number) in self.numbers.iter_mut().enumerate() {
            *number = (*number).max(other.numbers[index]);
        }
    }
}

impl TimeTable {
    ghost use Rattle.rules.specs.Stamps.{Within};
    ghost use Rattle.rules.specs.Tables.{raised, merged, least_credited};
    ghost use Rattle.tables.specs.Numbers.{in_row, row_raised, number};

    // The table in which no site is credited with anything.
    pub fn empty() -> TimeTable
        ensures { number result ≡ (λ _ _. 0) }
    {
        TimeTable {
            rows: [Row::empty(); 8],
        }
    }

    // The row of a site, and an empty one outside.
    pub fn row(&self, k: u8) -> Row
        ensures { in_row result ≡ number self.now k }
    {
        match index_of(k) {
            Some(index) => self.rows[index],
            None => Row::empty(),
        }
    }

    // The number for a site and an origin, and 0 outside.
    pub fn number(&self, k: u8, u: u8) -> u32
        ensures { result ≡ number self.now k u }
    {
        self.row(k).number(u)
    }

    // The number for a site and an origin becomes n, and every other number stays; outside nothing changes.
    pub fn set_number(&mut self, k: u8, u: u8, n: u32)
        ensures inside { Within 8 k → Within 8 u → number self.new ≡ raised (number self.old) k u n }
        ensures outside { (Within 8 k × Within 8 u → ⊥) → number self.new ≡ number self.old }
    {
        if let Some(index) = index_of(k) {
            // the rows by themselves: of a table that is out of its invariant the check follows no element
            let rows = &mut self.rows;
            rows[index].set_number(u, n);
        }
    }

    // The row of a site is raised to another, and every other row stays; outside nothing changes.
    pub fn raise_row(&mut self, k: u8, other: &Row)
        ensures inside { Within 8 k → number self.new ≡ row_raised (number self.old) k (in_row other.now) }
        ensures outside { (Within 8 k → ⊥) → self.new ≡ self.old }
    {
        if let Some(index) = index_of(k) {
            let rows = &mut self.rows;
            rows[index].raise(other);
        }
    }

    // The larger numbers, and in the own row also the writer's: what a site's table becomes when it accepts a sheet.
    pub fn merge(&mut self, seat: Seat, writer: u8, other: &TimeTable)
        ensures { number self.new ≡ merged seat.own writer (number self.old) (number other.now) }
    {
        for k in 1..=8 {
            self.raise_row(k, &other.row(k));
        }
        self.raise_row(seat.own, &other.row(writer));
    }

    // How many events of an origin every site of the group is credited with.
    pub fn least(&self, seat: Seat, u: u8) -> u32
        ensures { result ≡ least_credited seat.sites (number self.now) u }
    {
        self.rows[..usize::from(seat.sites)]
            .iter()
            .map(|row| row.number(u))
            .min()
            .unwrap_or(0)
    }
}
