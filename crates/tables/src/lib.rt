// A site's place in its group, and its time table.
#![tactic(auto)]

mod refusal;
mod seat;
mod table;

pub use refusal::SeatRefusal;
pub use seat::Seat;
pub use table::{Row, TimeTable};
