ghost use Rattle.std.specs.Prelude.{◌≡◌};

use places::{Key, Stamped};

// A row of a calendar: a stamp and an entry, in plain numbers.
#[derive(Clone, Copy, PartialEq, Eq, Debug)]
pub struct Row {
    pub site: u8,
    pub number: u32,
    pub bytes: [u8; 16],
}

impl Stamped for Row {
    ghost site = { λ r. r.site };

    ghost number = { λ r. r.number };

    fn key(&self) -> Key {
        Key {
            site: self.site,
            number: self.number,
        }
    }
}
