// Bytes in hexadecimal digits.
ghost use Rattle.std.specs.Prelude.{◌≡◌, None, Ok, IfOk, vec_items, string_bytes};
ghost use Rattle.std.specs.List.{list_all};
ghost use Rattle.std.specs.Option.{option_map};
ghost use Rattle.text.specs.Hexadecimals.{is_digit, hex_bytes_of, hex_text_of};

use hex::FromHexError;
use std::alloc::{AllocError, Global};

// Whether each byte is a digit; it never stops early, so that many bytes are tested at once.
fn only_digits(part: &[u8]) -> bool
    ensures { result ≡ list_all is_digit part.now }
{
    let mut only = true;
    for c in part {
        only &= c.is_ascii_hexdigit();
    }
    only
}

// The same of a text of any length; it looks no further than the first part with another byte.
fn all_digits(text: &[u8]) -> bool
    ensures { result ≡ list_all is_digit text.now }
{
    for part in text.chunks(32) {
        if !only_digits(part) {
            return false;
        }
    }
    true
}

// The bytes that a text writes, two digits for each; none where it is no pairs of digits, and that takes no memory.
pub fn hex_bytes(heap: Global, text: &[u8]) -> Result<Option<Vec<u8>>, AllocError>
    ensures value { IfOk result (λ v. option_map vec_items v ≡ hex_bytes_of text.now) }
    ensures refused { hex_bytes_of text.now ≡ None → result ≡ Ok None }
{
    // `decode` makes room for all bytes before it looks at a digit; an odd length it refuses at once
    if text.len() % 2 == 0 && !all_digits(text) {
        return Ok(None);
    }
    match hex::decode(heap, text) {
        Ok(bytes) => Ok(Some(bytes)),
        Err(FromHexError::OutOfMemory) => Err(AllocError),
        Err(_) => Ok(None),
    }
}

// The text that writes bytes, two digits for each.
pub fn hex_text(heap: Global, bytes: &[u8]) -> Result<String, AllocError>
    ensures { IfOk result (λ s. string_bytes s ≡ hex_text_of bytes.now) }
{
    hex::encode_upper(heap, bytes)
}
