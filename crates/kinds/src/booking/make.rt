// Bookings: eight bytes, code 1.
ghost use Rattle.std.specs.Prelude.{◌≡◌, refl, Some};
ghost use Rattle.kinds.specs.Bookings.{work_byte, work_of, work_of_name, work_text, booking_from, booking_text, bookings};
ghost use Rattle.kinds.specs.Booked.{bookings_lawful};

use crate::booking::{Booking, Work};
use crate::kind::{Kind, LAST_DAY, LAST_LINE};
use crate::refusal::{EntryRefusal, Field};
use dates::date_of;
use std::fmt;

impl From<Work> for u8 {
    ghost from_gives = { λ work byte. byte ≡ work_byte work };

    // The byte that stands for the work.
    fn from(work: Work) -> u8 {
        work as u8
    }
}

impl Work {
    // The work that a byte stands for. An `Option`, and no `TryFrom`: `of_fields` refuses the work in its turn, after the days.
    fn from_byte(byte: u8) -> Option<Work>
        ensures { result ≡ work_of byte }
    {
        match byte {
            1 => Some(Work::Retrofit),
            2 => Some(Work::Trial),
            3 => Some(Work::Freeze),
            _ => None,
        }
    }

    // The work of this name, which `Display` writes. An `Option`, and no `TryFrom`: an error type of its own would say no more.
    pub fn named(name: &[u8]) -> Option<Work>
        ensures { result ≡ work_of_name name.now }
    {
        // by `==`: of a `match` on these words the proof does not close
        if name == b"retrofit".as_slice() {
            Some(Work::Retrofit)
        } else if name == b"trial".as_slice() {
            Some(Work::Trial)
        } else if name == b"freeze".as_slice() {
            Some(Work::Freeze)
        } else {
            None
        }
    }
}

impl fmt::Display for Work {
    ghost output = { λ w. Some (work_text w) };

    fn fmt<W: fmt::Write>(&self, f: &mut fmt::Formatter<W>) -> fmt::Result {
        match self {
            Work::Retrofit => write!(f, "retrofit"),
            Work::Trial => write!(f, "trial"),
            Work::Freeze => write!(f, "freeze"),
        }
    }
}

impl Booking {
    // The booking of these fields, in their order; no work is a bad one.
    fn of_fields(
        line: u16,
        first: u16,
        last: u16,
        work: Option<Work>,
        crew: u8,
    ) -> Result<Booking, EntryRefusal>
        ensures { result ≡ booking_from line first last work crew }
    {
        if !(1..=LAST_LINE).contains(&line) {
            return Err(Field::Line.bad_at(0));
        }
        if first > LAST_DAY {
            return Err(Field::FirstDay.bad_at(2));
        }
        if last < first || last > LAST_DAY {
            return Err(Field::LastDay.bad_at(4));
        }
        let Some(work) = work else {
            return Err(Field::Work.bad_at(6));
        };
        if crew > 99 {
            return Err(Field::Crew.bad_at(7));
        }
        Ok(Booking {
            line,
            first,
            last,
            work,
            crew,
        })
    }

    // The booking of these fields.
    pub fn new(
        line: u16,
        first: u16,
        last: u16,
        work: Work,
        crew: u8,
    ) -> Result<Booking, EntryRefusal>
        ensures { result ≡ booking_from line first last (Some work) crew }
    {
        Booking::of_fields(line, first, last, Some(work), crew)
    }
}

impl Kind for Booking {
    ghost format = { bookings };

    ghost lawful = { bookings_lawful };

    ghost code_agrees = { refl };

    ghost width_agrees = { refl };

    const CODE: u8 = 1;

    ghost CODE = { 1 };

    const WIDTH: usize = 8;

    ghost WIDTH = { 8 };

    fn sample() -> Booking {
        Booking {
            line: 1,
            first: 0,
            last: 0,
            work: Work::Retrofit,
            crew: 0,
        }
    }

    fn decode(bytes: &[u8]) -> Result<Booking, EntryRefusal> {
        let [l0, l1, f0, f1, t0, t1, work, crew] = bytes else {
            return Err(EntryRefusal::bad_length(bytes, Self::WIDTH));
        };
        let line = u16::from_be_bytes([*l0, *l1]);
        let first = u16::from_be_bytes([*f0, *f1]);
        let last = u16::from_be_bytes([*t0, *t1]);
        Booking::of_fields(line, first, last, Work::from_byte(*work), *crew)
    }

    fn encode(&self) -> [u8; 16] {
        let mut bytes = [0; 16];
        bytes[0..2].copy_from_slice(&self.line.to_be_bytes());
        bytes[2..4].copy_from_slice(&self.first.to_be_bytes());
        bytes[4..6].copy_from_slice(&self.last.to_be_bytes());
        bytes[6] = u8::from(self.work);
        bytes[7] = self.crew;
        bytes
    }
}

impl fmt::Display for Booking {
    ghost output = { λ b. Some (booking_text b) };

    fn fmt<W: fmt::Write>(&self, f: &mut fmt::Formatter<W>) -> fmt::Result {
        let first = date_of(self.first);
        let last = date_of(self.last);
        write!(
            f,
            "line {} from {first} to {last}, {}, crew {}",
            self.line, self.work, self.crew
        )
    }
}
