// Events: their stamps and their records.
#![tactic(auto)]

mod record;
mod refusal;
mod stamp;

pub use record::{Body, Record};
pub use refusal::{StampRefusal, StampTextRefusal};
pub use stamp::Stamp;
