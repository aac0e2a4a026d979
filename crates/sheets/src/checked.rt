use tables::TimeTable;

// What a checked sheet says besides its records: who wrote it, and the table.
#[derive(Clone, Copy, PartialEq, Eq, Debug)]
pub struct Checked {
    pub writer: u8,
    pub table: TimeTable,
}
