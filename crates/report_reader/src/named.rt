//! The lines of a named germ, and of an unresolved one.

ghost use Rattle.std.specs.Prelude.{◌≡◌, ◌↔◌, None, IsTrue, IfOk, IfErr, IfSome};
ghost use Rattle.cert_text.specs.WellFormed.{IsWellFormedUnresolved, IsFamily};
ghost use Rattle.report_reader.specs.Blocks.{IsAtFront, IsNotAtFront, IsHalt};
ghost use Rattle.report_reader.specs.Lines.{IsWithin};
ghost use Rattle.report_reader.specs.Evidence.{IsBasis, basis_line, IsFront, IsNamedAs, IsOfFamily, mather_rest, named_rest, unresolved_rest};

use crate::carrying::read_carried;
use crate::frame::Frame;
use crate::halt::Halt;
use crate::line::take_number;
use crate::rows::{read_mather, read_table, read_units};
use crate::value::take_modulus_line;
use cert_text::{Carried, Named, Unresolved, Word};
use determinacy::MatherRow;
use ext_algebra::Ext;
use milnor_alg::{JetQuotient, TableRow};
use mono_exp::Exp;
use normal_forms::{Family, ModulusLine};
use ring_law::{Frac, NoMemory};
use row_reader::read_basis;
use sqlite_items::Items;
use std::alloc::Global;
use text_reader::split_at_byte;

/// What the lines of a named germ say up to its Milnor number.
#[derive(Drop)]
pub(crate) struct Front {
    pub family: Family,
    pub carried: Carried,
    pub units: Items<(Ext<Frac>, Ext<Frac>)>,
    pub modulus: ModulusLine,
    pub milnor: u32,
}

// A basis has at least one and at most 1,140 monomials.
fn is_size(size: usize) -> bool
    ensures { IsTrue result ↔ IsWithin 1 1140 size }
{
    size >= 1 && size <= 1140
}

// The basis in the line at the front.
fn take_basis(
    alloc: Global,
    corank: u8,
    bytes: &[u8],
) -> Result<Option<(Items<Exp>, &[u8])>, NoMemory>
    ensures some { IfOk result (λ found. IfSome found (IsAtFront (IsBasis corank) basis_line bytes.now)) }
    ensures none { IfOk result (λ found. found ≡ None → IsNotAtFront (IsBasis corank) basis_line bytes.now) }
{
    match split_at_byte(bytes, b'\n') {
        None => Ok(None),
        Some((text, rest)) => match read_basis(alloc, corank, text) {
            Err(NoMemory) => Err(NoMemory),
            Ok(None) => Ok(None),
            Ok(Some(basis)) => {
                if is_size(basis.len()) {
                    Ok(Some((basis, rest)))
                } else {
                    Ok(None)
                }
            }
        },
    }
}

// The report of all its lines.
fn named(
    front: Front,
    mather: Items<MatherRow<Ext<Frac>>>,
    basis: Items<Exp>,
    table: Items<TableRow<Ext<Frac>>>,
) -> Named
    ensures { result ≡ record {
      family = front.family;
      carried = front.carried;
      units = front.units;
      modulus = front.modulus;
      milnor = front.milnor;
      mather = mather;
      quotient = record { basis = basis; table = table };
    } }
{
    let Front {
        family,
        carried,
        units,
        modulus,
        milnor,
    } = front;
    Named {
        family,
        carried,
        units,
        modulus,
        milnor,
        mather,
        quotient: JetQuotient { basis, table },
    }
}

// The lines behind the Milnor number.
fn read_evidence(alloc: Global, front: Front, bytes: &[u8]) -> Result<(Named, &[u8]), Halt>
    requires front { IsFront front }
    ensures ok { IfOk result (IsAtFront (IsNamedAs front) mather_rest bytes.now) }
    ensures halt { IfErr result (IsHalt (IsNamedAs front) mather_rest bytes.now) }
{
    let frame = Frame {
        order: front.carried.order,
        algebra: front.carried.algebra,
        corank: front.carried.corank,
    };
    let (mather, one) = match read_mather(alloc, frame, bytes) {
        Err(halt) => return Err(halt),
        Ok(read) => read,
    };
    let (basis, two) = match take_basis(alloc, frame.corank, one) {
        Err(NoMemory) => return Err(Halt::NoMemory),
        Ok(None) => return Err(Halt::Stop { left: one.len() }),
        Ok(Some(taken)) => taken,
    };
    let size = basis.len();
    match read_table(alloc, frame, size, two) {
        Err(halt) => Err(halt),
        Ok((table, rest)) => Ok((named(front, mather, basis, table), rest)),
    }
}

/// The lines of a germ of this family.
pub(crate) fn read_named(
    alloc: Global,
    family: Family,
    bytes: &[u8],
) -> Result<(Named, &[u8]), Halt>
    requires family { IsFamily family }
    ensures ok { IfOk result (IsAtFront (IsOfFamily family) named_rest bytes.now) }
    ensures halt { IfErr result (IsHalt (IsOfFamily family) named_rest bytes.now) }
{
    let (carried, one) = match read_carried(alloc, Word::Form, bytes) {
        Err(halt) => return Err(halt),
        Ok(read) => read,
    };
    let (units, two) = match read_units(alloc, carried.algebra, one) {
        Err(halt) => return Err(halt),
        Ok(read) => read,
    };
    let (modulus, three) = match take_modulus_line(carried.algebra, two) {
        None => return Err(Halt::Stop { left: two.len() }),
        Some(taken) => taken,
    };
    let (milnor, four) = match take_number(Word::Milnor, 0, 4_294_967_295, three) {
        None => return Err(Halt::Stop { left: three.len() }),
        Some(taken) => taken,
    };
    let front = Front {
        family,
        carried,
        units,
        modulus,
        milnor: milnor as u32,
    };
    read_evidence(alloc, front, four)
}

/// The lines of a determined germ without name.
pub(crate) fn read_unresolved(alloc: Global, bytes: &[u8]) -> Result<(Unresolved, &[u8]), Halt>
    ensures ok { IfOk result (IsAtFront IsWellFormedUnresolved unresolved_rest bytes.now) }
    ensures halt { IfErr result (IsHalt IsWellFormedUnresolved unresolved_rest bytes.now) }
{
    let (carried, one) = match read_carried(alloc, Word::Jet, bytes) {
        Err(halt) => return Err(halt),
        Ok(read) => read,
    };
    let frame = Frame {
        order: carried.order,
        algebra: carried.algebra,
        corank: carried.corank,
    };
    match read_mather(alloc, frame, one) {
        Err(halt) => Err(halt),
        Ok((mather, rest)) => Ok((Unresolved { carried, mather }, rest)),
    }
}
