// Days by number and by date.
#![tactic(auto)]

mod date;
mod days;
mod read;

pub use date::Date;
pub use days::{date_of, day_of};
pub use read::read_date;
