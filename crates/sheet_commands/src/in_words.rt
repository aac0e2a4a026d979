ghost use Rattle.std.specs.Prelude.{◌≡◌, ℕ, List, Some, refl};
ghost use Rattle.kinds.specs.Bookings.{booking_text};
ghost use Rattle.kinds.specs.Notices.{notice_text};

use kinds::{Booking, Kind, Notice};
use std::fmt::Display;

// A kind whose entries are printed in words that are known.
pub trait InWords: Kind + Display + Copy {
    // the words of an entry
    ghost words: { Self → List ℕ };

    // they are what is printed
    ghost printed: { (e : Self) → Self.output e ≡ Some (words e) };
}

impl InWords for Booking {
    ghost words = { booking_text };

    ghost printed = { λ e. refl };
}

impl InWords for Notice {
    ghost words = { notice_text };

    ghost printed = { λ e. refl };
}
