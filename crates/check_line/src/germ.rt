//! The germ of the line of a report.

ghost use Rattle.std.specs.Prelude.{◌≤◌, length, IfOk};
ghost use Rattle.germ_law.specs.Germ.{line_limit};
ghost use Rattle.check_line.specs.Lines.{reading_limit, IsGermTest};

use line_germ::{Germ, Read, read_line};
use ring_law::NoMemory;
use std::alloc::Global;

/// The germ of a critical line, or why there is none.
#[derive(Drop)]
pub enum GermTest {
    Critical(Germ),
    NotCritical,
    High,
}

/// The germ of the line of a report of this order, read up to it, and at least up to 3: `NotCritical`
/// where the bytes spell no critical line with small numbers, `High` only where reading them forms a
/// number of height at least 2^120.
pub fn read_germ(alloc: Global, line: &[u8], order: u8) -> Result<GermTest, NoMemory>
    requires short { length line.now ≤ line_limit }
    requires at_most_16 { order ≤ 16 }
    ensures { IfOk result (IsGermTest line.now (reading_limit order)) }
{
    match read_line(alloc, line, order.max(3)) {
        Err(NoMemory) => Err(NoMemory),
        Ok(Read::Germ(germ)) => Ok(GermTest::Critical(germ)),
        Ok(Read::Syntax { .. }) => Ok(GermTest::NotCritical),
        Ok(Read::Literal { .. }) => Ok(GermTest::NotCritical),
        Ok(Read::Range) => Ok(GermTest::High),
        Ok(Read::NotCritical { .. }) => Ok(GermTest::NotCritical),
    }
}
