// The kinds of entry: their values, and the bytes that stand for them.
#![tactic(auto)]

mod booking;
mod kind;
mod notice;
mod refusal;

pub use booking::{Booking, Work};
pub use kind::Kind;
pub use notice::{LineOut, Notice, Word};
pub use refusal::{EntryRefusal, Field};
