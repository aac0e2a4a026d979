// Checking a whole sheet, and walking over the records of one.
#![tactic(auto)]

mod checked;
mod front;
mod records;

pub use checked::Checked;
pub use front::checking::check;
pub use records::SheetRecords;
