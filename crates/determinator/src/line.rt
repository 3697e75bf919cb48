//! The report of a line: its refusal, or the answer to its germ.

ghost use Rattle.std.specs.List.{list_all};
ghost use Rattle.std.specs.Prelude.{◌≡◌, ◌≤◌, IfOk, IsTrue, ◌&&◌, not, ◌==◌, nat_lt, length};
ghost use Rattle.germ_law.specs.Germ.{line_limit};
ghost use Rattle.report_law.specs.Right.{IsRight};
ghost use Rattle.planned_law.specs.Planned.{IsUnbuilt, IsPlanned};
ghost use Rattle.determinator.specs.Lines.{IsGood};

use crate::run::answer_to_germ;
use cert_text::{Answer, Phase, Report};
use line_germ::{Read, read_line};
use line_io::MAX_LINE;
use ring_law::NoMemory;
use sqlite_items::Items;
use std::alloc::{AllocError, Global};

// The answer to a line that is not too long.
fn answer_to(alloc: Global, line: &[u8], limit: u8) -> Result<Answer, NoMemory>
    requires short { length line.now ≤ line_limit }
    requires at_least_3 { 3 ≤ limit }
    requires at_most_16 { limit ≤ 16 }
    ensures { IfOk result (IsGood line.now limit) }
{
    match read_line(alloc, line, limit)? {
        Read::Syntax { column, what } => Ok(Answer::Syntax { column, what }),
        Read::Literal { column } => Ok(Answer::Literal { column }),
        Read::Range => Ok(Answer::Range { phase: Phase::Line }),
        Read::NotCritical { variable } => Ok(Answer::NotCritical { variable }),
        Read::Germ(germ) => answer_to_germ(alloc, germ.names.as_slice(), &germ.jet),
    }
}

/// The report of one line, without its newline, up to an order limit; from five variables on up to order 12 at most.
///
/// It is the too-long one exactly above 65,536 bytes. Other lines are read by the grammar: a line that is not in it is answered `Syntax`, one with a number above 10^18 - 1 `Literal`, one
/// with a linear term `NotCritical`, each with its place, and `Range` in the phase `Line` comes only where reading the line forms a number of height 2^120 or more. A critical line is
/// answered as the plan of its germ has it: with a name, `Outside`, `Limit` or `Unresolved`, or `Range` in a phase of the plan that forms such a number; in corank 2 and 3 it is `Unbuilt`.
///
/// Source: Arnold, Gusein-Zade, Varchenko, Singularities of Differentiable Maps, volume 1.
pub fn classify(alloc: Global, line: &[u8], limit: u8) -> Result<Report, NoMemory>
    requires one_line { IsTrue (list_all (λ b. nat_lt b 256 && not (b == 10)) line.now) }
    requires at_least_3 { 3 ≤ limit }
    requires at_most_16 { limit ≤ 16 }
    ensures right { IfOk result (IsRight (IsUnbuilt limit) limit line.now) }
    ensures planned { IfOk result (IsPlanned limit line.now) }
{
    if line.len() > MAX_LINE {
        return Ok(Report::Long {
            length: line.len() as u64,
        });
    }
    let held = match Items::from_slice(alloc, line) {
        Ok(held) => held,
        Err(AllocError) => return Err(NoMemory),
    };
    let answer = answer_to(alloc, line, limit)?;
    Ok(Report::Line { line: held, answer })
}
