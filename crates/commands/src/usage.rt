// How the commands are written.
ghost use Rattle.std.specs.Prelude.{Some};
ghost use Rattle.commands.specs.Usages.{usage_text};

use std::fmt;

// What is said of a command that has other words than it should, of all commands, and what is said of a word that is no command.
#[derive(Clone, Copy, PartialEq, Eq, Debug)]
pub(crate) enum Usage {
    Entry,
    Booking,
    Notice,
    Stamp,
    All,
    Unknown,
}

impl fmt::Display for Usage {
    ghost output = { λ x. Some (usage_text x) };

    fn fmt<W: fmt::Write>(&self, f: &mut fmt::Formatter<W>) -> fmt::Result {
        match self {
            Usage::Entry => write!(f, "usage: entry booking HEX, or entry notice HEX"),
            Usage::Booking => write!(f, "usage: booking LINE FIRST LAST WORK CREW"),
            Usage::Notice => write!(f, "usage: notice out LINE DAY, or notice word WORD"),
            Usage::Stamp => write!(f, "usage: stamp SITE.NUMBER"),
            Usage::All => write!(
                f,
                "commands: entry booking HEX; entry notice HEX; booking LINE FIRST LAST WORK CREW; notice out LINE DAY; notice word WORD; stamp SITE.NUMBER; sheet N SITE KIND HEX; sheet-file N SITE KIND PATH; help"
            ),
            Usage::Unknown => write!(f, "no such command: help lists them"),
        }
    }
}
