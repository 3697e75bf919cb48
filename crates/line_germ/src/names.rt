//! Words as names.

ghost use Rattle.std.specs.Prelude.{◌≡◌, map, All, IfOk};
ghost use Rattle.line_germ.specs.Names as words;

use poly_text::Name;
use sqlite_items::Items;
use std::alloc::{AllocError, Global};

/// The name with these bytes.
pub(crate) fn name_of(word: &[u8]) -> Name
    requires { words.IsShort word.now }
    ensures { result ≡ words.name_of word.now }
{
    match word {
        [a] => Name {
            bytes: [*a, 0, 0, 0],
            len: 1,
        },
        [a, b] => Name {
            bytes: [*a, *b, 0, 0],
            len: 2,
        },
        [a, b, c] => Name {
            bytes: [*a, *b, *c, 0],
            len: 3,
        },
        [a, b, c, d] => Name {
            bytes: [*a, *b, *c, *d],
            len: 4,
        },
        _ => Name {
            bytes: [0; 4],
            len: 0,
        },
    }
}

/// The names with these bytes, in their order.
pub(crate) fn names_of(alloc: Global, names: &[Vec<u8>]) -> Result<Items<Name>, AllocError>
    requires { All (λ v. words.IsShort v.items) names.now }
    ensures { IfOk result (λ n. n ≡ map words.name_of (map (λ v. v.items) names.now)) }
{
    let mut all = Items::new(alloc);
    for name in names {
        all.push(name_of(name.as_slice()))?;
    }
    Ok(all)
}
