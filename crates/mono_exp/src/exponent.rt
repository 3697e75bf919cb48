//! Exponent vectors: degrees, order, products and quotients.

ghost use Rattle.std.specs.Prelude.{◌≡◌, ◌≤◌, ◌↔◌, sum, IsSome, IfSome};
ghost use Rattle.mono_exp.specs.Exponents.{weighted_degree_of, is_before, HasProduct, IsProduct, Divides};

/// The exponents of a monomial in at most eight variables; places of no variable hold 0.
#[derive(Clone, Copy, Debug, PartialEq, Eq)]
pub struct Exp {
    pub e: [u8; 8],
}

/// The degree of a monomial, the sum of its exponents.
pub fn degree(a: Exp) -> u16
    ensures degree { result ≡ sum a.e }
    ensures small { result ≤ 2040 }
{
    let mut total = 0;
    for x in a.e {
        total += u16::from(x);
    }
    total
}

/// The weighted degree of a monomial, the sum of its exponents times the weights of the variables.
pub fn weight(a: Exp, w: [u8; 8]) -> u32
    ensures weight { result ≡ weighted_degree_of w a.e }
    ensures small { result ≤ 520200 }
{
    let mut total = 0;
    for i in 0..8 {
        total += u32::from(w[i]) * u32::from(a.e[i]);
    }
    total
}

/// True where a stands before b: its degree is lower, or the degrees are equal and its exponent is
/// the greater one at the first place that differs.
pub fn before(a: Exp, b: Exp) -> bool
    ensures { result ≡ is_before a.e b.e }
{
    let (degree_a, degree_b) = (degree(a), degree(b));
    if degree_a != degree_b {
        return degree_a < degree_b;
    }
    for i in 0..8 {
        if a.e[i] != b.e[i] {
            return b.e[i] < a.e[i];
        }
    }
    false
}

/// The product of two monomials, or `None` where an exponent passes 255.
pub fn times(a: Exp, b: Exp) -> Option<Exp>
    ensures fits { IsSome result ↔ HasProduct a.e b.e }
    ensures product { IfSome result (λ c. IsProduct c.e a.e b.e) }
{
    let mut e = [0; 8];
    for i in 0..8 {
        e[i] = a.e[i].checked_add(b.e[i])?;
    }
    Some(Exp { e })
}

/// The quotient `a / b`, or `None` where b does not divide a.
pub fn quotient(a: Exp, b: Exp) -> Option<Exp>
    ensures divides { IsSome result ↔ Divides b.e a.e }
    ensures quotient { IfSome result (λ q. IsProduct a.e q.e b.e) }
{
    let mut e = [0; 8];
    for i in 0..8 {
        e[i] = a.e[i].checked_sub(b.e[i])?;
    }
    Some(Exp { e })
}
