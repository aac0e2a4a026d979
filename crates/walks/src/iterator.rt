ghost use Rattle.std.specs.Prelude.{◌≡◌, List, Option};
ghost use Rattle.std.specs.Iterator.{YieldsFirstBy, item_count, UpTo};
ghost use Rattle.rules.specs.Records as rules;
ghost use Rattle.events.specs.declared.record.Record as events;
ghost use Rattle.events.specs.Told.{record_of};

use events::Record;

// An iterator over records; from a copy the same ones come again.
pub trait RecordIterator<V>: Iterator<Item = Record<V>> + Copy {
    // the records that are still to come
    ghost coming: { Self → List (rules.Record V) };

    // the next one may always be asked for
    ghost ready: { (s : Self) → Self.can_next s };

    // it is the first of those to come, and none comes only where none is left
    ghost gives: { (s : Self) (r : Option (events.Record V)) (t : Self) → Self.next_gives s r t → YieldsFirstBy record_of coming s r t };

    // as many come as are still to come
    ghost counted: { (s : Self) → Self.remaining s ≡ item_count coming s };

    // eight sites make 8,000,000 events at most
    ghost few: { (s : Self) → UpTo (Self.remaining s) 8000000 };
}
