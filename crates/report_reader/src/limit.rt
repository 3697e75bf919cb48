//! The lines of a germ that is not decided up to its order.

ghost use Rattle.std.specs.Prelude.{IfOk, IfErr};
ghost use Rattle.cert_text.specs.WellFormed.{IsWellFormedLimit};
ghost use Rattle.report_reader.specs.Blocks.{IsAtFront, IsHalt};
ghost use Rattle.report_reader.specs.Answers.{limit_rest};

use crate::carrying::read_carried;
use crate::functional::read_functional;
use crate::halt::Halt;
use cert_text::{Limit, Word};
use std::alloc::Global;

/// The lines of a germ that is not decided up to its order.
pub(crate) fn read_limit(alloc: Global, bytes: &[u8]) -> Result<(Limit, &[u8]), Halt>
    ensures ok { IfOk result (IsAtFront IsWellFormedLimit limit_rest bytes.now) }
    ensures halt { IfErr result (IsHalt IsWellFormedLimit limit_rest bytes.now) }
{
    let (carried, one) = match read_carried(alloc, Word::Jet, bytes) {
        Err(halt) => return Err(halt),
        Ok(read) => read,
    };
    match read_functional(alloc, carried.algebra, carried.corank, one) {
        Err(halt) => Err(halt),
        Ok((functional, rest)) => {
            let (at, values) = functional;
            Ok((
                Limit {
                    carried,
                    at,
                    functional: values,
                },
                rest,
            ))
        }
    }
}
