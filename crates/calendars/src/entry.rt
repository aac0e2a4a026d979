// Entries in plain rows.
ghost use Rattle.std.specs.Prelude.{◌≡◌, true};
ghost use Rattle.calendars.specs.Rows.{sound, entry_in, entry_read, row_of};
ghost use Rattle.calendars.specs.Told.{shown};

use crate::row::Row;
use events::Stamp;
use kinds::Kind;
use places::value_of;

// An entry: the stamp of its booking, and its value.
#[derive(Clone, Copy, PartialEq, Eq, Debug)]
pub struct Entry<V> {
    pub at: Stamp,
    pub value: V,
}

impl Row {
    // The row that keeps a value under a stamp.
    pub fn of<V: Kind>(at: Stamp, value: &V) -> Row
        ensures value { result ≡ row_of V.Kind.format at.site at.number value.now }
        ensures keeps { entry_in V.Kind.format result ≡ (at.site, at.number, value.now) }
        ensures sound { sound result ≡ true }
    {
        Row {
            site: at.site(),
            number: at.number(),
            bytes: value.encode(),
        }
    }

    // The entry that a row keeps, if its stamp can exist.
    pub fn entry<V: Kind>(self) -> Option<Entry<V>>
        ensures { shown result ≡ entry_read V.Kind.format self }
    {
        let at = Stamp::new(self.site, self.number).ok()?;
        let value = value_of(&self.bytes);
        Some(Entry { at, value })
    }
}
