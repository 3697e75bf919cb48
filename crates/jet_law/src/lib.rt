//! Words on jets that contracts cite: the polynomial of a list of terms, heights of operations on
//! polynomials, and the canonical list of terms of a polynomial up to a degree.
#![tactic(auto)]
