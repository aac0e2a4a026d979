// The stamps of a sheet's records, one after the other.
ghost use Rattle.std.specs.Iterator.{item_count};
ghost use Rattle.sheets.specs.Coming.{IsFirstLeft, stamps_left, GivesStamp};

use crate::records::StampsLeft;
use events::Stamp;

impl StampsLeft {
    // The first origin of which an event is left.
    fn origin(&self) -> Option<u8>
        ensures { IsFirstLeft self.now result }
    {
        (self.at..=self.writer.seat.sites).find(|&origin| self.done.number(origin)
            < self.writer.known.number(origin).min(1_000_000))
    }
}

impl Iterator for StampsLeft {
    type Item = Stamp;

    ghost next_gives = { GivesStamp };

    ghost remaining = { item_count stamps_left };

    fn next(&mut self) -> Option<Stamp> {
        let origin = self.origin()?;
        let number = self.done.number(origin) + 1;
        self.at = origin;
        self.done.set_number(origin, number);
        Stamp::new(origin, number).ok()
    }
}
