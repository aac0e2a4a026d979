// The commands of linecal: for each line of input, the text that is printed.
#![tactic(auto)]

mod entries;
mod usage;

pub use entries::answers::answer;
