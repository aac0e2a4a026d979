ghost use Rattle.std.specs.Prelude.{◌≡◌, true, false, [], length, drop, is_ok};
ghost use Rattle.std.specs.List.{list_all};
ghost use Rattle.rules.specs.Entries.{room, leave, holds};
ghost use Rattle.rules.specs.Stamps.{least, after};
ghost use Rattle.places.specs.Used.{in_use};
ghost use Rattle.calendars.specs.Rows.{sound, entries_in};
ghost use Rattle.calendars.specs.Told.{shown};
ghost use Rattle.calendars.specs.Refused.{answered};
ghost use Rattle.calendars.specs.Meanings.{join_answer, join_entries};
ghost use Rattle.calendars.specs.Memory.{rows_joined, rows_left};

use crate::entry::Entry;
use crate::refusal::CalendarRefusal;
use crate::row::Row;
use events::Stamp;
use kinds::Kind;
use places::{Full, Key, Rows};
use std::marker::PhantomData;

// Entries of one kind in stamp order, in the first of the rows: as many as there are rows, and 4,096 at most.
#[derive(Drop)]
pub struct Calendar<'a, V> {
    rows: Rows<'a, Row, 4096>,
    kind: PhantomData<V>,
    ghost stamped: { list_all sound (in_use rows) ≡ true },
}

// The entry of the first row, if there is one. Rings do the same with places: a trait for both would be longer than these lines.
fn first_of<V: Kind>(rows: &[Row]) -> Option<Entry<V>>
    requires { list_all sound rows.now ≡ true }
    ensures { shown result ≡ least (entries_in V.Kind.format rows.now) }
{
    rows.first()?.entry()
}

impl<'a, V: Kind + Copy> Calendar<'a, V> {
    ghost use Rattle.calendars.specs.Calendars.{calendar_means};

    // An empty calendar over the rows, of which the first 4,096 are used. They are left as they are.
    pub fn new(rows: &'a mut [Row]) -> Calendar<'a, V>
        ensures entries { (calendar_means V.Kind.format result).entries ≡ [] }
        ensures room { (calendar_means V.Kind.format result).room ≡ room (length rows.old) }
        ensures memory { result.rows.rows.now ≡ rows.old }
    {
        Calendar {
            rows: Rows::new(rows),
            kind: PhantomData,
        }
    }

    // The most entries that it can hold.
    pub fn room(&self) -> usize
        ensures { result ≡ (calendar_means V.Kind.format self.now).room }
    {
        self.rows.room()
    }

    // How many entries it holds.
    pub fn len(&self) -> usize
        ensures { result ≡ length (calendar_means V.Kind.format self.now).entries }
    {
        self.rows.len()
    }

    // Whether an entry stands under the stamp.
    pub fn contains(&self, at: Stamp) -> bool
        ensures { result ≡ holds at.site at.number (calendar_means V.Kind.format self.now).entries }
    {
        self.rows.contains(Key::from(at))
    }

    // The value joins under the stamp, in place of what stands there: refused with 22 if there would be too many.
    pub fn join(&mut self, at: Stamp, value: V) -> Result<(), CalendarRefusal>
        ensures answer { answered result ≡ join_answer (calendar_means V.Kind.format self.old) (at.site, at.number, value) }
        ensures entries { (calendar_means V.Kind.format self.new).entries ≡ join_entries (calendar_means V.Kind.format self.old) (at.site, at.number, value) }
        ensures room { (calendar_means V.Kind.format self.new).room ≡ (calendar_means V.Kind.format self.old).room }
        ensures kept { is_ok result ≡ false → self.new ≡ self.old }
        ensures memory { self.new.rows.rows.now ≡ rows_joined V.Kind.format at.site at.number value result self.old.rows }
        ensures behind { drop 4096 self.new.rows.rows.now ≡ drop 4096 self.old.rows.rows.now }
    {
        match self.rows.put(Row::of(at, &value)) {
            Ok(()) => Ok(()),
            Err(Full) => Err(CalendarRefusal::Full {
                count: self.rows.len() + 1,
            }),
        }
    }

    // The entry under the stamp leaves, if there is one.
    pub fn leave(&mut self, at: Stamp)
        ensures entries { (calendar_means V.Kind.format self.new).entries ≡ leave at.site at.number (calendar_means V.Kind.format self.old).entries }
        ensures room { (calendar_means V.Kind.format self.new).room ≡ (calendar_means V.Kind.format self.old).room }
        ensures memory { self.new.rows.rows.now ≡ rows_left at.site at.number self.old.rows }
        ensures behind { drop 4096 self.new.rows.rows.now ≡ drop 4096 self.old.rows.rows.now }
    {
        self.rows.remove(Key::from(at));
    }

    // The first entry, or none.
    pub fn first(&self) -> Option<Entry<V>>
        ensures { shown result ≡ least (calendar_means V.Kind.format self.now).entries }
    {
        first_of(self.rows.as_slice())
    }

    // The first entry above the stamp, or none.
    pub fn next(&self, at: Stamp) -> Option<Entry<V>>
        ensures { shown result ≡ after at.site at.number (calendar_means V.Kind.format self.now).entries }
    {
        first_of(self.rows.rows_from(Key::above(at)))
    }
}
