//! Readers of the lines of a report that hold elements, monomials and polynomials.
#![tactic(auto)]

mod part;
mod row;
mod value;
mod word;

pub use part::read_part;
pub use row::{read_mather_row, read_table_row};
pub use value::{read_basis, read_elements, read_functional_value, read_unit};
