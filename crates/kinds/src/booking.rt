ghost use Rattle.std.specs.Prelude.{◌≤◌};

pub mod make;

// What is done on a line.
#[derive(Clone, Copy, PartialEq, Eq, Debug)]
pub enum Work {
    Retrofit = 1,
    Trial = 2,
    Freeze = 3,
}

// A booking of a line, 1 to 999, from a first day to a last, each 0 to 36,524 counted from 2000-01-01, by a crew, 0 to 99.
#[derive(Clone, Copy, PartialEq, Eq, Debug)]
pub struct Booking {
    pub line: u16,
    pub first: u16,
    pub last: u16,
    pub work: Work,
    pub crew: u8,
    ghost line_ok: { (1 ≤ line) × (line ≤ 999) },
    ghost days_ok: { (first ≤ last) × (last ≤ 36524) },
    ghost crew_ok: { crew ≤ 99 },
}
