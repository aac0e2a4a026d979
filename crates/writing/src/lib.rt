// Writing a sheet into a lent buffer.
#![tactic(auto)]

mod buffer;
mod refusal;

pub use buffer::sheet::write;
pub use refusal::ShortBuffer;
