ghost use Rattle.std.specs.Prelude.{◌≡◌, ◌≤◌, length};
ghost use Rattle.kinds.specs.Letters.{front};

pub mod make;

// A line, 1 to 999, that is out on a day, 0 to 36,524 counted from 2000-01-01.
#[derive(Clone, Copy, PartialEq, Eq, Debug)]
pub struct LineOut {
    pub line: u16,
    pub day: u16,
    ghost line_ok: { (1 ≤ line) × (line ≤ 999) },
    ghost day_ok: { day ≤ 36524 },
}

// A word of four letters A to Z.
#[derive(Clone, Copy, PartialEq, Eq, Debug)]
pub struct Word {
    pub letters: [u8; 4],
    ghost long: { length letters ≡ 4 },
    ghost spelled: { front letters ≡ 4 },
}

// What a notice says.
#[derive(Clone, Copy, PartialEq, Eq, Debug)]
pub enum Notice {
    LineOut(LineOut),
    Word(Word),
}
