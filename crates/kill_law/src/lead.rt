//! Leads: monomials that lie in the Jacobian ideal of a form up to a tail, with the cofactors that
//! show it.

/// A whole number times powers of the letters a, b and c: `Product(k, [p, q, r])` is
/// `k * a^p * b^q * c^r`.
#[derive(Clone, Copy, Debug)]
pub struct Product(pub i32, pub [u8; 3]);

/// What a coefficient is divided by: one product of letters, or the sum of two.
#[derive(Clone, Copy, Debug)]
pub enum Divisor {
    One(Product),
    Two(Product, Product),
}

/// The term `number / divisor * x^p * y^q * z^r`, with the exponents p, q and r of its monomial.
#[derive(Clone, Copy, Debug)]
pub struct Entry {
    pub number: Product,
    pub divisor: Divisor,
    pub monomial: [u8; 3],
}

/// What a partial derivative is multiplied by: zero, an entry, or the sum of two.
#[derive(Clone, Copy, Debug)]
pub enum Cofactor {
    Zero,
    One(Entry),
    Two(Entry, Entry),
}

/// A lead of a form: its monomial is the sum of the cofactors x, y and z times the partial
/// derivatives of the form in these variables, plus the tail, if there is one.
#[derive(Clone, Copy, Debug)]
pub struct Lead {
    pub monomial: [u8; 3],
    pub x: Cofactor,
    pub y: Cofactor,
    pub z: Cofactor,
    pub tail: Option<Entry>,
}
