//! The text for one line.
ghost use Rattle.germ_cli.specs.Answers.{IsAnswerText, IsTextFor};
ghost use Rattle.germ_cli.specs.Words.{IsLimit};
ghost use Rattle.line_io.specs.LineSoFar.{IsUnbroken};
ghost use Rattle.line_io.specs.Reading.{IsHandedOut};
ghost use Rattle.std.specs.Prelude.{◌≡◌, ◌≤◌, ◌<◌, ℕ, List, length, IfOk};

use cert_text::{Report, write_report};
use determinator::classify;
use line_io::{MAX_LINE, Next, is_answered_line};
use ring_law::NoMemory;
use std::alloc::Global;

// The text of the report of a line.
fn answer_text(alloc: Global, limit: u8, line: &[u8]) -> Result<Vec<u8>, NoMemory>
    requires limit { IsLimit limit }
    requires unbroken { IsUnbroken line.now }
    ensures { IfOk result (λ text. IsAnswerText limit line.now text.items) }
{
    let report = classify(alloc, line, limit)?;
    write_report(alloc, &report)
}

// The text of the report of a line with so many bytes, which is too long.
fn too_long_text(alloc: Global, count: u64) -> Result<Vec<u8>, NoMemory>
    ensures { IfOk result (λ text. (limit : ℕ) (line : List ℕ) → count ≡ length line → MAX_LINE < length line → IsAnswerText limit line text.items) }
{
    write_report(alloc, &Report::Long { length: count })
}

/// The text for a line that was handed out, up to this order: that of its report, or nothing where it
/// is passed over. `line` is the line after `Next::Line`.
pub fn text_for(alloc: Global, limit: u8, next: Next, line: &[u8]) -> Result<Vec<u8>, NoMemory>
    requires limit { IsLimit limit }
    requires unbroken { next ≡ Next.Line → IsUnbroken line.now }
    ensures { IfOk result (λ text. (bytes : List ℕ) → IsHandedOut bytes line.now next → IsTextFor limit bytes text.items) }
{
    match next {
        Next::Line if is_answered_line(line) => answer_text(alloc, limit, line),
        Next::Long(count) => too_long_text(alloc, count),
        _ => Ok(Vec::new(alloc)),
    }
}
