//! Powers of the three variables in rising order.

ghost use Rattle.std.specs.Prelude.{◌≡◌, [], ◌∷◌, map};
ghost use Rattle.move_law.specs.Finish.{in_order as in_order_of};

/// Three powers, each an exponent and the number of its variable, by rising exponents, those with
/// one exponent in their order.
pub fn in_order(p: (u8, u8), q: (u8, u8), r: (u8, u8)) -> ((u8, u8), (u8, u8), (u8, u8))
    ensures { result.0 ∷ result.1 ∷ result.2 ∷ [] ≡ in_order_of (p ∷ q ∷ r ∷ []) }
{
    let (low, high) = if q.0 <= r.0 { (q, r) } else { (r, q) };
    if p.0 <= low.0 {
        (p, low, high)
    } else if p.0 <= high.0 {
        (low, p, high)
    } else {
        (low, high, p)
    }
}
