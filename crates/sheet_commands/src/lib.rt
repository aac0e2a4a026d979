// The commands of linecal that look at a sheet, and what every command needs: the words of a line, and what is wrong with them.
#![tactic(auto)]

mod answers;
mod in_words;
mod lines;
mod problem;
mod words;

pub use answers::{answer_file, answer_sheet, file_named, say_usage};
pub use in_words::InWords;
pub use problem::{BadWord, Problem};
pub use words::{first_words, number, words_up_to};
