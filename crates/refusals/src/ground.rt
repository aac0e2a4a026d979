ghost use Rattle.std.specs.Prelude.{◌≡◌, ℕ, List, Some};
ghost use Rattle.std.specs.Fmt.{DisplaysOnOk};
ghost use Rattle.rules.specs.Refusals as rules;
ghost use Rattle.refusals.specs.Shown.{told, ground_text};

use crate::refusal::Refusal;
use std::fmt;

// Why something is refused. Each ground's Display calls `write_refusal`: no impl can give Display to every ground at once.
pub trait Ground: Copy {
    // the refusal, as the rules have it
    ghost by_rules: { Self → rules.Refusal };

    // what is wrong, in words
    ghost in_words: { Self → List ℕ };

    // What is told of the refusal: its number, what it carries, and the layer.
    fn refusal(self) -> Refusal
        ensures { result ≡ told (by_rules self) };

    // Writes what is wrong.
    fn write_words<W: fmt::Write>(self, f: &mut fmt::Formatter<W>) -> fmt::Result
        ensures { DisplaysOnOk W.write_str_gives f.old result (Some (in_words self)) f.new };

    // Writes what is told, and then what is wrong: the text that a ground's Display writes.
    final fn write_refusal<W: fmt::Write>(self, f: &mut fmt::Formatter<W>) -> fmt::Result
        ensures { DisplaysOnOk W.write_str_gives f.old result (Some (ground_text (by_rules self) (in_words self))) f.new }
    {
        let refusal = self.refusal();
        write!(f, "{refusal}: ")?;
        self.write_words(f)
    }
}
