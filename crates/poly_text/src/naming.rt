//! The text of a name.

ghost use Rattle.std.specs.Prelude.{◌≡◌, ◌++◌, OnOk};
ghost use Rattle.poly_text.specs.Polynomials.{name_text, new_name, new_names as new_names_of};

use crate::name::Name;
use std::alloc::AllocError;

/// Appends the bytes of a name.
pub fn put_name(out: &mut Vec<u8>, name: &Name) -> Result<(), AllocError>
    ensures { OnOk result (out.new.items ≡ out.old.items ++ name_text name.now) }
{
    let (bytes, _) = name.bytes.split_at((name.len as usize).min(4));
    out.extend_from_slice(bytes)
}

// The name `u` and a digit.
fn new_name_of(digit: u8) -> Name
    ensures { result ≡ new_name digit }
{
    Name {
        bytes: [b'u', digit, 0, 0],
        len: 2,
    }
}

/// The names of the new variables, u1 to u8.
#[tactic(auto, unfolding(crate::specs::Polynomials::new_names))]
pub fn new_names() -> [Name; 8]
    ensures { result ≡ new_names_of }
{
    [
        new_name_of(b'1'),
        new_name_of(b'2'),
        new_name_of(b'3'),
        new_name_of(b'4'),
        new_name_of(b'5'),
        new_name_of(b'6'),
        new_name_of(b'7'),
        new_name_of(b'8'),
    ]
}
