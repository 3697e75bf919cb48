//! The text of numbers, fractions and elements, and of sums of signed pieces.

ghost use Rattle.std.specs.Prelude.{◌≡◌, ◌++◌, ◌∷◌, [], map, OnOk, IfSome, None, decimal};
ghost use Rattle.std.specs.Fmt.{signed_decimal};
ghost use Rattle.std.specs.List.{flat_map};
ghost use Rattle.poly_text.specs.Numbers.{fraction_text, product_text, signed_text, component_text, components, components_text, without_plus, without_zeros, element_text, scaled_text, is_whole, is_zero_fraction, Piece};

use ext_algebra::Ext;
use itoa::Buffer;
use ring_law::Frac;
use std::alloc::{AllocError, Global};

/// True where the two numbers are equal.
pub fn is_number(n: i128, other: i128) -> bool
    ensures { result ≡ is_whole n other }
{
    n == other
}

// The fraction is 0.
fn is_zero(q: Frac) -> bool
    ensures { result ≡ is_zero_fraction q }
{
    is_number(q.num, 0)
}

/// Appends the digits of a number.
pub fn put_number(out: &mut Vec<u8>, n: u64) -> Result<(), AllocError>
    ensures { OnOk result (out.new.items ≡ out.old.items ++ decimal n) }
{
    let mut digits = Buffer::new();
    out.extend_from_slice(digits.format(n).as_bytes())
}

/// Appends a whole number, with `-` before it where it is negative.
pub fn put_integer(out: &mut Vec<u8>, n: i128) -> Result<(), AllocError>
    ensures { OnOk result (out.new.items ≡ out.old.items ++ signed_decimal n) }
{
    let mut digits = Buffer::new();
    out.extend_from_slice(digits.format(n).as_bytes())
}

/// Appends a fraction, as `a` or `a/b`.
pub fn put_fraction(out: &mut Vec<u8>, q: Frac) -> Result<(), AllocError>
    ensures { OnOk result (out.new.items ≡ out.old.items ++ fraction_text q) }
{
    put_integer(out, q.num)?;
    if !is_number(q.den, 1) {
        out.push(b'/')?;
        put_integer(out, q.den)?;
    }
    Ok(())
}

/// Appends a coefficient before a body that is empty or begins with `*`.
pub fn put_product(out: &mut Vec<u8>, q: Frac, body: &[u8]) -> Result<(), AllocError>
    ensures { OnOk result (out.new.items ≡ out.old.items ++ product_text q body.now) }
{
    match body {
        [] => put_fraction(out, q)?,
        [_, rest @ ..] => {
            if is_number(q.den, 1) && is_number(q.num, 1) {
                out.extend_from_slice(rest)?;
            } else if is_number(q.den, 1) && is_number(q.num, -1) {
                out.push(b'-')?;
                out.extend_from_slice(rest)?;
            } else {
                put_fraction(out, q)?;
                out.extend_from_slice(body)?;
            }
        }
    }
    Ok(())
}

/// Appends a piece of a sum, with its sign before it.
pub fn put_signed(out: &mut Vec<u8>, piece: &[u8]) -> Result<(), AllocError>
    ensures { OnOk result (out.new.items ≡ out.old.items ++ signed_text piece.now) }
{
    match piece {
        [b'-', ..] => out.extend_from_slice(piece)?,
        _ => {
            out.push(b'+')?;
            out.extend_from_slice(piece)?;
        }
    }
    Ok(())
}

/// Appends the sum of the signed pieces, with no plus at its front; `0` for no piece.
pub fn put_sum(out: &mut Vec<u8>, pieces: &[u8]) -> Result<(), AllocError>
    ensures { OnOk result (out.new.items ≡ out.old.items ++ without_plus pieces.now) }
{
    match pieces {
        [] => out.push(b'0')?,
        [b'+', rest @ ..] => out.extend_from_slice(rest)?,
        _ => out.extend_from_slice(pieces)?,
    }
    Ok(())
}

/// Appends a number before a body to the pieces of a sum, unless it is 0.
pub fn put_component(
    alloc: Global,
    pieces: &mut Vec<u8>,
    q: Frac,
    body: &[u8],
) -> Result<(), AllocError>
    ensures { OnOk result (pieces.new.items ≡ pieces.old.items ++ component_text (q, body.now)) }
{
    if !is_zero(q) {
        let mut piece = Vec::new(alloc);
        put_product(&mut piece, q, body)?;
        put_signed(pieces, &piece)?;
    }
    Ok(())
}

/// Appends numbers, each before a body, to the pieces of a sum, without those that are 0.
pub fn put_components(
    alloc: Global,
    pieces: &mut Vec<u8>,
    components: &[(Frac, &[u8])],
) -> Result<(), AllocError>
    ensures { OnOk result (pieces.new.items ≡ pieces.old.items ++ flat_map (λ p. component_text (p.0, p.1.now)) components.now) }
{
    for (q, body) in components {
        put_component(alloc, pieces, *q, body)?;
    }
    Ok(())
}

// The components of an element: its numbers, each before its letters.
fn components_of(e: Ext<Frac>) -> [(Frac, &'static [u8]); 6]
    ensures { map (λ p. (p.0, p.1.now)) result ≡ components e }
{
    [
        (e.c0, b""),
        (e.c1, b"*t"),
        (e.c2, b"*t^2"),
        (e.c3, b"*s"),
        (e.c4, b"*s*t"),
        (e.c5, b"*s*t^2"),
    ]
}

/// Appends the components of an element to the pieces of a sum.
#[tactic(auto, unfolding(crate::specs::Numbers::components_text))]
pub fn put_element_pieces(
    alloc: Global,
    pieces: &mut Vec<u8>,
    e: Ext<Frac>,
) -> Result<(), AllocError>
    ensures { OnOk result (pieces.new.items ≡ pieces.old.items ++ components_text e) }
{
    put_components(alloc, pieces, &components_of(e))
}

/// Appends an element.
#[tactic(auto, unfolding(crate::specs::Numbers::element_text))]
pub fn put_element(alloc: Global, out: &mut Vec<u8>, e: Ext<Frac>) -> Result<(), AllocError>
    ensures { OnOk result (out.new.items ≡ out.old.items ++ element_text e) }
{
    let mut pieces = Vec::new(alloc);
    put_element_pieces(alloc, &mut pieces, e)?;
    put_sum(out, &pieces)
}

/// The only component that is not 0, with its letters; `None` where there is none, or more.
pub fn only_component(e: Ext<Frac>) -> Option<(Frac, &'static [u8])>
    ensures some { IfSome result (λ p. without_zeros (components e) ≡ (p.0, p.1.now) ∷ []) }
    ensures none { result ≡ None → (p : Piece) → without_zeros (components e) ≡ p ∷ [] → ⊥ }
{
    let mut only = None;
    for (q, letters) in &components_of(e) {
        if !is_zero(*q) {
            if only.is_some() {
                return None;
            }
            only = Some((*q, *letters));
        }
    }
    only
}

/// Appends an element before a body that begins with `*`.
#[tactic(auto, unfolding(crate::specs::Numbers::scaled_text))]
pub fn put_scaled(
    alloc: Global,
    out: &mut Vec<u8>,
    e: Ext<Frac>,
    body: &[u8],
) -> Result<(), AllocError>
    ensures { OnOk result (out.new.items ≡ out.old.items ++ scaled_text e body.now) }
{
    match only_component(e) {
        Some((q, letters)) => {
            let mut behind = Vec::new(alloc);
            behind.extend_from_slice(letters)?;
            behind.extend_from_slice(body)?;
            put_product(out, q, &behind)
        }
        None => {
            out.push(b'(')?;
            put_element(alloc, out, e)?;
            out.push(b')')?;
            out.extend_from_slice(body)
        }
    }
}
