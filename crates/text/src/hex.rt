ghost use Rattle.std.specs.Prelude.{◌≡◌, ◌%◌, ◌<◌, IfSome, IfOk, Some, None, string_bytes, MatchResult};
ghost use Rattle.text.specs.Faults.{AtFaultOrFull};
ghost use Rattle.text.specs.Hexadecimal.{value_of, digit_of, byte_of, bytes_of, word_of};

use crate::fault::Fault;
use std::alloc::{AllocError, Global};

// The value of a hexadecimal digit, in either case; by cases, here and below, as the definitions have it.
fn digit_value(c: u8) -> Option<u8>
    ensures value { result ≡ value_of c }
    ensures below { IfSome result (λ v. v < 16) }
{
    match c {
        b'0'..=b'9' => Some(c - b'0'),
        b'a'..=b'f' => Some(c - b'a' + 10),
        b'A'..=b'F' => Some(c - b'A' + 10),
        _ => None,
    }
}

// The byte that two digits spell.
fn byte(high: u8, low: u8) -> Option<u8>
    ensures { result ≡ byte_of high low }
{
    Some(digit_value(high)? * 16 + digit_value(low)?)
}

// The digit of the lowest four bits.
fn digit(value: u8) -> char
    ensures value { result ≡ digit_of (value % 16) }
    ensures ascii { result < 128 }
{
    let low = value % 16;
    if low < 10 {
        (b'0' + low) as char
    } else {
        (b'a' + (low - 10)) as char
    }
}

// The bytes that a word spells in hexadecimal; `-` is the empty string.
pub fn decode(heap: Global, word: &str) -> Result<Vec<u8>, Fault>
    ensures { MatchResult result (λ bytes. bytes_of word.now ≡ Some bytes.items) (λ fault. AtFaultOrFull fault (bytes_of word.now ≡ None)) }
{
    let mut bytes = Vec::new(heap);
    if word == "-" {
        return Ok(bytes);
    }
    let (pairs, odd) = word.as_bytes().as_chunks::<2>();
    if !odd.is_empty() {
        return Err(Fault::Line("an odd number of hexadecimal digits"));
    }
    for [high, low] in pairs {
        match byte(*high, *low) {
            Some(b) => bytes.push(b)?,
            None => return Err(Fault::Line("not a hexadecimal digit")),
        }
    }
    Ok(bytes)
}

// The bytes in lower-case hexadecimal; `-` where there are none. Decoding it gives the bytes back.
pub fn encode(heap: Global, bytes: &[u8]) -> Result<String, AllocError>
    ensures word { IfOk result (λ word. string_bytes word ≡ word_of bytes.now) }
    ensures back { IfOk result (λ word. bytes_of (string_bytes word) ≡ Some bytes.now) }
{
    if bytes.is_empty() {
        return String::from_str(heap, "-");
    }
    let mut word = String::new(heap);
    for b in bytes {
        word.push(digit(*b / 16))?;
        word.push(digit(*b))?;
    }
    Ok(word)
}
