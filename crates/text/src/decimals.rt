// Numbers in decimal digits.
ghost use Rattle.std.specs.Prelude.{◌≡◌};
ghost use Rattle.text.specs.Decimals.{capped, decimal_of};

// The number that the text writes in decimal digits, at least one; one too large for the type reads as the largest.
pub fn decimal(text: &[u8]) -> Option<u32>
    ensures { result ≡ capped (decimal_of text.now) }
{
    if text.is_empty() {
        return None;
    }
    let mut n = 0u32;
    for c in text {
        let digit = char::from(*c).to_digit(10)?;
        n = n.saturating_mul(10).saturating_add(digit);
    }
    Some(n)
}
