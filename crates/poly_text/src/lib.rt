//! Lines of input, names of variables, and the text of polynomials.
#![tactic(auto)]

mod name;
mod naming;
mod number;
mod polynomial;
mod what;

pub use name::Name;
pub use naming::{new_names, put_name};
pub use number::{
    is_number, only_component, put_component, put_components, put_element, put_fraction,
    put_integer, put_number, put_product, put_scaled, put_signed, put_sum,
};
pub use polynomial::{is_unit_monomial, put_monomial, put_polynomial, write_poly};
pub use what::What;
