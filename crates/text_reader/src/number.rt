//! Whole numbers.

ghost use Rattle.std.specs.Prelude.{◌≡◌, ℕ, ◌+◌, ◌-◌, ◌*◌, ◌<◌, ◌≤◌, ◌^◌, ◌↔◌, IsTrue, None, decimal, IfSome};
ghost use Rattle.text_reader.specs.Reading.{IsTextOf, IsNoText};
ghost use Rattle.text_reader.specs.Digits.{IsValueOf, IsCanonical};

// The number with one more digit at its end, where it is at most `most`.
fn appended(value: u128, byte: u8, most: u128) -> Option<u128>
    ensures some { IfSome result (λ v. (48 ≤ byte) × (byte ≤ 57) × (v ≡ value * 10 + (byte - 48)) × (v ≤ most)) }
    ensures none { result ≡ None → 48 ≤ byte → byte ≤ 57 → most < value * 10 + (byte - 48) }
{
    if !byte.is_ascii_digit() {
        return None;
    }
    let more = value.checked_mul(10)?.checked_add(u128::from(byte - b'0'))?;
    if more > most { None } else { Some(more) }
}

// The number of the digits, where it is at most `most`.
fn digits_number(bytes: &[u8], most: u128) -> Option<u128>
    ensures some { IfSome result (λ n. IsValueOf bytes.now n × (n ≤ most)) }
    ensures none { result ≡ None → IsNoText (λ n. n ≤ most) decimal bytes.now }
{
    let mut value = 0;
    for b in bytes {
        match appended(value, *b, most) {
            None => return None,
            Some(more) => value = more,
        }
    }
    Some(value)
}

// There is a digit, and a zero at the front only where it stands alone.
fn is_canonical(bytes: &[u8]) -> bool
    ensures { IsTrue result ↔ IsCanonical bytes.now }
{
    !bytes.is_empty() && (bytes[0] != b'0' || bytes.len() == 1)
}

/// The number of at most `most` with these digits, and no zero before them.
pub(crate) fn read_number(bytes: &[u8], most: u128) -> Option<u128>
    ensures some { IfSome result (IsTextOf (λ n. n ≤ most) decimal bytes.now) }
    ensures none { result ≡ None → IsNoText (λ n. n ≤ most) decimal bytes.now }
{
    if is_canonical(bytes) {
        digits_number(bytes, most)
    } else {
        None
    }
}

/// A number below 2^64, as `0` or `12`.
pub fn read_u64(bytes: &[u8]) -> Option<u64>
    ensures some { IfSome result (IsTextOf (λ n. n < 2 ^ 64) decimal bytes.now) }
    ensures none { result ≡ None → IsNoText (λ n. n < 2 ^ 64) decimal bytes.now }
{
    match read_number(bytes, u128::from(u64::MAX)) {
        Some(n) => Some(n as u64),
        None => None,
    }
}

/// A number below 2^32.
pub fn read_u32(bytes: &[u8]) -> Option<u32>
    ensures some { IfSome result (IsTextOf (λ n. n < 2 ^ 32) decimal bytes.now) }
    ensures none { result ≡ None → IsNoText (λ n. n < 2 ^ 32) decimal bytes.now }
{
    match read_number(bytes, u128::from(u32::MAX)) {
        Some(n) => Some(n as u32),
        None => None,
    }
}

/// A number below 256.
pub fn read_u8(bytes: &[u8]) -> Option<u8>
    ensures some { IfSome result (IsTextOf (λ n. n < 256) decimal bytes.now) }
    ensures none { result ≡ None → IsNoText (λ n. n < 256) decimal bytes.now }
{
    match read_number(bytes, u128::from(u8::MAX)) {
        Some(n) => Some(n as u8),
        None => None,
    }
}
