//! Cutting bytes at a byte, and at a known front.

ghost use Rattle.std.specs.Prelude.{◌≡◌, ◌≢◌, ℕ, ◌<◌, ◌==◌, None, List, ◌∷◌, ◌++◌, ◌↔◌, IsTrue, length, position, IfSome};
ghost use Rattle.std.specs.List.{AllByRecursion};
ghost use Rattle.cert_law.specs.Unique.{Starts};
ghost use Rattle.text_reader.specs.Pieces.{joined, IsSign, is_sign};

/// The place of the first such byte.
pub(crate) fn place_of(bytes: &[u8], byte: u8) -> Option<usize>
    ensures at { result ≡ position (λ b. b == byte) bytes.now }
    ensures within { IfSome result (λ at. at < length bytes.now) }
{
    bytes.iter().position(|b| *b == byte)
}

/// True where the bytes are this text.
pub(crate) fn is_text(bytes: &[u8], text: &[u8]) -> bool
    ensures { IsTrue result ↔ (bytes.now ≡ text.now) }
{
    bytes == text
}

/// What stands before the first such byte and what stands behind it; `None` where there is none.
pub fn split_at_byte(bytes: &[u8], byte: u8) -> Option<(&[u8], &[u8])>
    ensures some { IfSome result (λ p. (bytes.now ≡ p.0.now ++ byte ∷ p.1.now) × AllByRecursion (λ b. b ≢ byte) p.0.now) }
    ensures none { result ≡ None → AllByRecursion (λ b. b ≢ byte) bytes.now }
{
    match place_of(bytes, byte) {
        None => None,
        Some(at) => Some((&bytes[..at], &bytes[at + 1..])),
    }
}

/// What stands behind this front; `None` where the bytes do not begin with it.
pub fn strip_front<'a>(bytes: &'a [u8], front: &[u8]) -> Option<&'a [u8]>
    ensures some { IfSome result (λ rest. bytes.now ≡ front.now ++ rest.now) }
    ensures none { result ≡ None → (rest : List ℕ) → bytes.now ≡ front.now ++ rest → ⊥ }
{
    bytes.strip_prefix(front)
}

/// What stands before this end; `None` where the bytes do not end with it.
pub(crate) fn strip_end<'a>(bytes: &'a [u8], end: &[u8]) -> Option<&'a [u8]>
    ensures some { IfSome result (λ front. bytes.now ≡ front.now ++ end.now) }
    ensures none { result ≡ None → (front : List ℕ) → bytes.now ≡ front ++ end.now → ⊥ }
{
    bytes.strip_suffix(end)
}

/// The first byte and what stands behind it.
pub(crate) fn first_and_rest(bytes: &[u8]) -> Option<(u8, &[u8])>
    ensures { joined result ≡ bytes.now }
{
    match bytes {
        [] => None,
        [first, rest @ ..] => Some((*first, rest)),
    }
}

// The place of the first sign.
fn sign_at(bytes: &[u8]) -> Option<usize>
    ensures at { result ≡ position is_sign bytes.now }
    ensures within { IfSome result (λ at. at < length bytes.now) }
{
    bytes.iter().position(|b| *b == b'+' || *b == b'-')
}

/// What stands before the first sign, and the sum that begins with it.
pub(crate) fn split_before_sign(bytes: &[u8]) -> (&[u8], Option<(u8, &[u8])>)
    ensures whole { bytes.now ≡ result.0.now ++ joined result.1 }
    ensures front { AllByRecursion (λ b. ¬ IsSign b) result.0.now }
    ensures starts { Starts IsSign (joined result.1) }
{
    match sign_at(bytes) {
        None => (bytes, None),
        Some(at) => (&bytes[..at], Some((bytes[at], &bytes[at + 1..]))),
    }
}
