// Bytes written as hexadecimal digits.
ghost use Rattle.std.specs.Prelude.{◌≡◌, ◌<◌, IfSome, IfOk, is_some, not};
ghost use Rattle.std.specs.List.{position};
ghost use Rattle.wording.specs.Hex.{digit_value, two_digits, pair_bytes};

use std::alloc::{AllocError, Global};

// The value of a hexadecimal digit.
fn hex_digit(b: u8) -> Option<u8>
    ensures value { result ≡ digit_value b }
    ensures bound { IfSome result (λ v. v < 16) }
{
    match b {
        b'0'..=b'9' => Some(b - b'0'),
        b'a'..=b'f' => Some(b - b'a' + 10),
        b'A'..=b'F' => Some(b - b'A' + 10),
        _ => None,
    }
}

// How many digits stand before the first byte that is none, if there is one.
pub fn first_other(text: &[u8]) -> Option<usize>
    ensures { result ≡ position (λ b. not (is_some (digit_value b))) text.now }
{
    text.iter().position(|b| hex_digit(*b).is_none())
}

// The bytes of pairs of digits; a single digit at the end is left out.
pub fn hex_bytes(heap: Global, text: &[u8]) -> Result<Vec<u8>, AllocError>
    ensures { IfOk result (λ v. v.items ≡ pair_bytes text.now) }
{
    let mut bytes = Vec::new(heap);
    let mut rest = text;
    while let [high, low, tail @ ..] = rest {
        bytes.push(pair(*high, *low))?;
        rest = tail;
    }
    Ok(bytes)
}

// The byte of two digits.
fn pair(high: u8, low: u8) -> u8
    ensures { result ≡ two_digits (digit_value high) (digit_value low) }
{
    match (hex_digit(high), hex_digit(low)) {
        (Some(high), Some(low)) => 16 * high + low,
        _ => 0,
    }
}
