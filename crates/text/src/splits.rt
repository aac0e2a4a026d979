// A text in two parts.
ghost use Rattle.std.specs.Prelude.{◌≡◌};
ghost use Rattle.std.specs.Option.{option_map};
ghost use Rattle.text.specs.Splits.{split_at};

// What stands before the first byte that is `mark`, and what stands behind it.
pub fn split_once(text: &[u8], mark: u8) -> Option<(&[u8], &[u8])>
    ensures { option_map (λ p. (p.0.now, p.1.now)) result ≡ split_at mark text.now }
{
    let i = text.iter().position(|c| *c == mark)?;
    Some((&text[..i], &text[i + 1..]))
}
