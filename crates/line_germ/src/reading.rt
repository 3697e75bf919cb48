//! Lines as germs, with columns and names.

ghost use Rattle.std.specs.Prelude.{◌≡◌, ◌+◌, ◌<◌, ◌≤◌, [], map, length, get_or, All, IfOk};
ghost use Rattle.line_germ.specs.Names as words;
ghost use Rattle.line_germ.specs.Answers.{what_at, IsNamed};
ghost use Rattle.line_germ.specs.Reads.{IsReadOf};
ghost use Rattle.line_jet.specs.Reads as jets;

use crate::names::{name_of, names_of};
use jet_poly::Jet;
use line_jet::{LineGerm, LineRead, read_jet};
use poly_text::{Name, What};
use ring_law::{Frac, NoMemory};
use sqlite_items::Items;
use std::alloc::{AllocError, Global};

/// The germ of a line: its variables in order, the order up to which it was read, and its jet of that order.
#[derive(Drop)]
pub struct Germ {
    pub names: Items<Name>,
    pub order: u8,
    pub jet: Jet<Frac>,
}

/// The germ of a line, or why it has none. Columns count from 1.
#[derive(Drop)]
pub enum Read {
    Germ(Germ),
    Syntax { column: u32, what: What },
    Literal { column: u32 },
    Range,
    NotCritical { variable: Name },
}

// The column behind n bytes.
fn column_of(n: usize) -> u32
    requires { n ≤ 65536 }
    ensures { result ≡ n + 1 }
{
    n as u32 + 1
}

// What stands behind n bytes of a line.
fn what_behind(line: &[u8], n: usize) -> What
    ensures { result ≡ what_at line.now n }
{
    if n == line.len() {
        What::End
    } else {
        What::Byte
    }
}

// The germ with names.
fn named(alloc: Global, germ: LineGerm) -> Result<Germ, AllocError>
    requires { All (λ v. words.IsShort v.items) germ.names.items }
    ensures { IfOk result (IsNamed (map (λ v. v.items) germ.names.items) germ.jet) }
{
    let LineGerm { names, jet } = germ;
    let names = names_of(alloc, names.as_slice())?;
    let order = jet.order();
    Ok(Germ { names, order, jet })
}

// The name of a variable by its place.
fn name_at(names: &[Vec<u8>], i: usize) -> Name
    requires short { All (λ v. words.IsShort v.items) names.now }
    requires within { i < length names.now }
    ensures { result ≡ words.name_of (get_or (map (λ v. v.items) names.now) i []) }
{
    name_of(names[i].as_slice())
}

// What is answered for a line, by what was read.
fn answer_of(alloc: Global, line: &[u8], limit: u8, read: LineRead) -> Result<Read, AllocError>
    requires short { length line.now ≤ 65536 }
    requires read { jets.IsReadOf line.now limit read }
    ensures { IfOk result (IsReadOf line.now limit) }
{
    let _ = limit;
    match read {
        LineRead::Germ(germ) => Ok(Read::Germ(named(alloc, germ)?)),
        LineRead::Syntax(n) => Ok(Read::Syntax {
            column: column_of(n),
            what: what_behind(line, n),
        }),
        LineRead::Literal(n) => Ok(Read::Literal {
            column: column_of(n),
        }),
        LineRead::Range => Ok(Read::Range),
        LineRead::NotCritical(names, i) => Ok(Read::NotCritical {
            variable: name_at(names.as_slice(), i),
        }),
    }
}

/// Reads a line: its germ up to the order limit for its variables, or why it has none.
///
/// The order is `limit` for at most four variables, and the smaller of `limit` and 12 for five to eight. `Range` comes only
/// where reading the line up to that order forms a number of height 2^120 or more.
pub fn read_line(alloc: Global, bytes: &[u8], limit: u8) -> Result<Read, NoMemory>
    requires short { length bytes.now ≤ 65536 }
    requires at_least_3 { 3 ≤ limit }
    requires at_most_16 { limit ≤ 16 }
    ensures { IfOk result (IsReadOf bytes.now limit) }
{
    match read_jet(alloc, bytes, limit) {
        Err(_) => Err(NoMemory),
        Ok(read) => match answer_of(alloc, bytes, limit, read) {
            Err(_) => Err(NoMemory),
            Ok(answer) => Ok(answer),
        },
    }
}
