//! Texts that are the same for every input: the usage line, and the table of the families.
ghost use Rattle.germ_cli.specs.Run.{WroteText};
ghost use Rattle.germ_cli.specs.declared.status.Status.{Status};
ghost use Rattle.line_io.specs.Causes.{Rose};
ghost use Rattle.std.specs.Prelude.{◌≡◌};

use crate::status::Status;
use line_io::{Sink, write_whole};

/// The answer to words that are no command.
pub const USAGE: &[u8] = b"usage: germ classify [K] | check | make START COUNT | table\n";

/// The families of the list with their normal forms, one a line. Source: Arnold, Gusein-Zade, Varchenko, Singularities of Differentiable
/// Maps I, section 15.1.
pub const TABLE: &[u8] =
    b"A(m) u1^(m+1)\nD(m) u1^2*u2+u2^(m-1)\nE6 u1^3+u2^4\nE7 u1^3+u1*u2^3\nE8 u1^3+u2^5\nP8 cubic(u1,u2,u3)\nX9 quartic(u1,u2)\nJ10 u1^3+u1*u2^4+u2^6\nT(2,3,r) u1^3+u1^2*u2^2+u2^r\nT(2,4,r) u1^4+u1^2*u2^2+u2^r\nT(2,q,r) u1^2*u2^2+u1^q+u2^r\nT(p,q,r) u1*u2*u3+u1^p+u2^q+u3^r\nE12 u1^3+u2^7+u1*u2^5\nE13 u1^3+u1*u2^5+u2^8\nE14 u1^3+u2^8+u1*u2^6\nZ11 u1^3*u2+u2^5+u1*u2^4\nZ12 u1^3*u2+u1*u2^4+u1^2*u2^3\nZ13 u1^3*u2+u2^6+u1*u2^5\nW12 u1^4+u2^5+u1^2*u2^3\nW13 u1^4+u1*u2^4+u2^6\nQ10 u1^3+u2*u3^2+u2^4+u1*u2^3\nQ11 u1^3+u2*u3^2+u1*u2^3+u2^5\nQ12 u1^3+u2*u3^2+u2^5+u1*u2^4\nS11 u2^2*u3+u1*u3^2+u1^4+u1^3*u3\nS12 u2^2*u3+u1*u3^2+u1^3*u2+u1^5\nU12 u1^3+u2^3+u3^4+u1*u2*u3^2\n";

/// Writes the text. The run then ends with this status, or with `WriteFault` where a write failed.
pub fn tell<W: Sink>(sink: &mut W, text: &[u8], status: Status) -> Status
    requires other { status ≡ Status.WriteFault → ⊥ }
    ensures told { WroteText text.now status (W.taken sink.old) (W.taken sink.new) result }
    ensures write { result ≡ Status.WriteFault → Rose (W.faults sink.old) (W.faults sink.new) }
{
    match write_whole(sink, text) {
        Ok(()) => status,
        Err(_) => Status::WriteFault,
    }
}
