//! Reports.

ghost use Rattle.std.specs.Prelude.{◌≡◌, ℕ, Err, IfOk};
ghost use Rattle.cert_text.specs.Text.{report_text};
ghost use Rattle.cert_text.specs.WellFormed.{IsWellFormed};
ghost use Rattle.cert_text.specs.BadText.{IsBadText};

use crate::error::ReadError;
use crate::halt::Halt;
use crate::whole::read_front;
use cert_text::Report;
use std::alloc::Global;

/// The report with this text.
///
/// Errors: `BadText` where the bytes are the text of no well-formed report, with the number of the
/// bytes in the most whole lines at their front that begin such a text; `NoMemory`.
pub fn read_report(alloc: Global, bytes: &[u8]) -> Result<Report, ReadError>
    ensures well_formed { IfOk result IsWellFormed }
    ensures text { IfOk result (λ r. report_text r ≡ bytes.now) }
    ensures bad_text { (offset : ℕ) → result ≡ Err (ReadError.BadText offset) → IsBadText bytes.now offset }
{
    let (report, rest) = match read_front(alloc, bytes) {
        Ok(read) => read,
        Err(halt) => match halt {
            Halt::NoMemory => return Err(ReadError::NoMemory),
            Halt::Stop { left } => {
                let offset = bytes.len().saturating_sub(left) as u64;
                return Err(ReadError::BadText { offset });
            }
        },
    };
    if !rest.is_empty() {
        let offset = bytes.len().saturating_sub(rest.len()) as u64;
        return Err(ReadError::BadText { offset });
    }
    Ok(report)
}
