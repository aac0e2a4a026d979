// Reading a date.
ghost use Rattle.std.specs.Prelude.{◌≡◌};
ghost use Rattle.dates.specs.Text.{date_read};

use crate::date::Date;
use text::{decimal, split_once};

// The date that a text writes, as 2024-08-22. Whether there is such a date is another question.
// No `TryFrom<&[u8]>`: `None` says all, and an error type would put `.ok_or(NoDate)` before each `?` here and `.ok()` at the caller.
pub fn read_date(text: &[u8]) -> Option<Date>
    ensures { result ≡ date_read text.now }
{
    let (year, rest) = split_once(text, b'-')?;
    let (month, day) = split_once(rest, b'-')?;
    let year = decimal(year)?;
    let month = u8::try_from(decimal(month)?).ok()?;
    let day = u8::try_from(decimal(day)?).ok()?;
    Some(Date { year, month, day })
}
