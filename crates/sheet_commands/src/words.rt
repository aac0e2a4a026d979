// The words of a line.
ghost use Rattle.std.specs.Prelude.{◌≡◌, map};
ghost use Rattle.sheet_commands.specs.Words.{first_words, words_up_to, number_read};

use crate::problem::BadWord;
use std::array;
use text::{cut_word, decimal};

// The first six words of a line, empty where there are none: no command has more than five, and a sixth shows that a line has.
pub fn first_words(line: &[u8]) -> [&[u8]; 6]
    ensures { map (λ w. w.now) result ≡ first_words 6 line.now }
{
    words_up_to(line, 6)
}

// The same, but of at most so many words: those behind them are empty, and the line is not read on.
// The six is no const parameter: an array of references of such a length gets no proof.
pub fn words_up_to(line: &[u8], most: usize) -> [&[u8]; 6]
    ensures { map (λ w. w.now) result ≡ words_up_to most 6 line.now }
{
    let mut rest = line;
    array::from_fn(|i| {
        if i < most {
            let (word, behind) = cut_word(rest);
            rest = behind;
            word
        } else {
            &[]
        }
    })
}

// A number; one that is too large reads as the largest.
pub fn number(word: &[u8]) -> Result<u32, BadWord>
    ensures { result ≡ number_read word.now }
{
    decimal(word).ok_or(BadWord::Number)
}
