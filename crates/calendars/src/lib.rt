// Calendars: entries of any kind in stamp order, in rows that the caller lends.
#![tactic(auto)]

mod calendar;
mod entry;
mod refusal;
mod row;

pub use calendar::Calendar;
pub use entry::Entry;
pub use refusal::CalendarRefusal;
pub use row::Row;
