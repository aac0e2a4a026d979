// Memory that the caller lends: rows in stamp order, the one search for a stamp's place, shifting, and values in plain bytes.
#![tactic(auto)]

mod key;
mod rows;
mod search;
mod stamped;
mod value;

pub use key::Key;
pub use rows::{Full, Rows, insert_at, remove_run};
pub use search::rank_of;
pub use stamped::Stamped;
pub use value::value_of;
