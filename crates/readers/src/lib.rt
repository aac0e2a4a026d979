// Reading the parts of a sheet from lent bytes, and why a sheet is turned away.
#![tactic(auto)]

mod reader;
mod refusal;

pub use reader::{Part, Reader, RecordPart, Writer};
pub use refusal::{HeadByte, NumberGround, RecordByte, SheetRefusal};
