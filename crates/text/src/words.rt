// The words of a line.
ghost use Rattle.std.specs.Prelude.{◌≡◌, length};
ghost use Rattle.text.specs.Words.{blank, trimmed, front_word, word, behind};

// Whether a byte stands between words.
fn is_blank(c: u8) -> bool
    ensures { result ≡ blank c }
{
    matches!(c, b' ' | b'\t' | b'\n' | b'\r')
}

// What is left behind the blanks in front.
fn trim(text: &[u8]) -> &[u8]
    ensures { result.now ≡ trimmed text.now }
{
    let front = text
        .iter()
        .position(|c| !is_blank(*c))
        .unwrap_or(text.len());
    &text[front..]
}

// How many bytes stand before the first blank.
fn word_length(text: &[u8]) -> usize
    ensures { result ≡ length (front_word text.now) }
{
    text.iter().position(|c| is_blank(*c)).unwrap_or(text.len())
}

// The first word of a line, empty if there is none, and what stands behind it.
pub fn cut_word(line: &[u8]) -> (&[u8], &[u8])
    ensures first { result.0.now ≡ word line.now }
    ensures rest { result.1.now ≡ behind line.now }
{
    let text = trim(line);
    let end = word_length(text);
    text.split_at(end)
}
