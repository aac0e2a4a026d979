// Text: numbers in decimal digits, bytes in hexadecimal digits, the words of a line.
#![tactic(auto)]

mod decimals;
mod hexadecimals;
mod splits;
mod words;

pub use decimals::decimal;
pub use hexadecimals::{hex_bytes, hex_text};
pub use splits::split_once;
pub use words::cut_word;
