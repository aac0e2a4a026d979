ghost use Rattle.std.specs.Prelude.{Some};
ghost use Rattle.refusals.specs.Shown.{layer_text};

use std::fmt;

// The layer that finds a refusal. The last three are things that are made over what is supplied.
#[derive(Clone, Copy, PartialEq, Eq, Debug)]
pub enum Layer {
    Kind,
    Sheet,
    Store,
    Calendar,
    Channel,
    Site,
    Ring,
    Lists,
    Mailbox,
}

impl fmt::Display for Layer {
    ghost output = { λ l. Some (layer_text l) };

    fn fmt<W: fmt::Write>(&self, f: &mut fmt::Formatter<W>) -> fmt::Result {
        match self {
            Layer::Kind => write!(f, "kind"),
            Layer::Sheet => write!(f, "sheet"),
            Layer::Store => write!(f, "store"),
            Layer::Calendar => write!(f, "calendar"),
            Layer::Channel => write!(f, "channel"),
            Layer::Site => write!(f, "site"),
            Layer::Ring => write!(f, "ring"),
            Layer::Lists => write!(f, "lists"),
            Layer::Mailbox => write!(f, "mailbox"),
        }
    }
}
