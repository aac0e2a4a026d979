// A walk over any records, as an iterator.
ghost use Rattle.std.specs.Prelude.{◌≡◌, ◌≤◌, length, refl, ⊤};
ghost use Rattle.std.specs.Iterator.{YieldsFirstBy, item_count};
ghost use Rattle.std.proofs.Math.Nat.{le_trans};
ghost use Rattle.events.specs.Told.{record_of};
ghost use Rattle.walks.specs.Coming.{left};

use crate::iterator::RecordIterator;
use crate::records::Records;
use events::Record;
use std::alloc::AllocError;
use std::marker::PhantomData;

// The records, and whether they have ended: what comes after their end is not asked for.
pub struct Walk<V, R: Records<V>> {
    records: R,
    most: u32,
    ended: bool,
    kind: PhantomData<V>,
    ghost few: { (length (left ended (R.coming records)) ≤ most) × (most ≤ 8000000) },
}

// By hand: there is no derive for a struct with a ghost field and type parameters.
impl<V: Copy, R: Records<V>> Clone for Walk<V, R> {
    ghost is_clone = { λ s r. r ≡ s };

    ghost is_infallible = { λ _. ⊤ };

    fn clone(&self) -> Result<Walk<V, R>, AllocError> {
        Ok(*self)
    }
}

impl<V: Copy, R: Records<V>> Copy for Walk<V, R> {}

impl<V: Copy, R: Records<V>> Walk<V, R> {
    // A walk over these records.
    pub fn new(records: R) -> Walk<V, R>
        ensures { ⟦<Walk<V, R> as RecordIterator<V>>⟧.coming result ≡ R.coming records }
    {
        Walk {
            records,
            most: records.bound(),
            ended: false,
            kind: PhantomData,
        }
    }
}

impl<V: Copy, R: Records<V>> Iterator for Walk<V, R> {
    type Item = Record<V>;

    ghost next_gives = { YieldsFirstBy record_of (λ w. left w.ended (R.coming w.records)) };

    ghost remaining = { item_count (λ w. left w.ended (R.coming w.records)) };

    fn next(&mut self) -> Option<Record<V>> {
        if self.ended {
            return None;
        }
        let record = self.records.next();
        self.ended = record.is_none();
        record
    }

    fn size_hint(&self) -> (usize, Option<usize>) {
        (0, Some(self.most as usize))
    }
}

impl<V: Copy, R: Records<V>> RecordIterator<V> for Walk<V, R> {
    ghost coming = { λ w. left w.ended (R.coming w.records) };

    ghost ready = { λ s. tt };

    ghost gives = { λ s r t e. e };

    ghost counted = { λ s. refl };

    ghost few = { λ s. (tt, le_trans s.few.0 s.few.1) };
}
