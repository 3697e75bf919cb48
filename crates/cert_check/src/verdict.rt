//! The verdict on a report, item by item.

ghost use Rattle.std.specs.Prelude.{◌≤◌, IfOk, IsTrue, length};
ghost use Rattle.germ_law.specs.Germ.{line_limit};
ghost use Rattle.cert_text.specs.WellFormed.{is_valid_name, IsWellFormed, IsWellFormedAnswer, IsWellFormedCarried, IsWellFormedNamed, IsWellFormedLimit, IsWellFormedUnresolved};
ghost use Rattle.report_law.specs.Verdicts.{IsVerdictOn};
ghost use Rattle.cert_check.specs.Heights.{IsItemHigh};

use crate::certificate::{limit_found, named_found, outside_found, unresolved_found};
use crate::found::{decided, verdict_of, verdict_on_refusal};
use cert_text::{Answer, Limit, Named, Outside, Report, Unresolved};
use check_line::{is_literal_refusal, is_syntax_refusal, is_too_long, test_not_critical};
use poly_text::{Name, What};
use report_law::Verdict;
use ring_law::NoMemory;
use std::alloc::Global;

fn syntax_verdict(alloc: Global, line: &[u8], column: u32, what: What) -> Result<Verdict, NoMemory>
    requires { length line.now ≤ line_limit }
    ensures { IfOk result (IsVerdictOn IsItemHigh (Report.Line line.now (Answer.Syntax column what))) }
{
    match is_syntax_refusal(alloc, line, column, what) {
        Err(NoMemory) => Err(NoMemory),
        Ok(holds) => Ok(verdict_on_refusal(decided(holds))),
    }
}

fn literal_verdict(alloc: Global, line: &[u8], column: u32) -> Result<Verdict, NoMemory>
    requires { length line.now ≤ line_limit }
    ensures { IfOk result (IsVerdictOn IsItemHigh (Report.Line line.now (Answer.Literal column))) }
{
    match is_literal_refusal(alloc, line, column) {
        Err(NoMemory) => Err(NoMemory),
        Ok(holds) => Ok(verdict_on_refusal(decided(holds))),
    }
}

fn not_critical_verdict(alloc: Global, line: &[u8], variable: Name) -> Result<Verdict, NoMemory>
    requires short { length line.now ≤ line_limit }
    requires name { IsTrue (is_valid_name variable) }
    ensures { IfOk result (IsVerdictOn IsItemHigh (Report.Line line.now (Answer.NotCritical variable))) }
{
    match test_not_critical(alloc, line, variable) {
        Err(NoMemory) => Err(NoMemory),
        Ok(answer) => Ok(verdict_on_refusal(answer)),
    }
}

fn named_verdict(alloc: Global, line: &[u8], r: &Named) -> Result<Verdict, NoMemory>
    requires short { length line.now ≤ line_limit }
    requires well_formed { IsWellFormedNamed r.now }
    ensures { IfOk result (IsVerdictOn IsItemHigh (Report.Line line.now (Answer.Named r.now))) }
{
    match named_found(alloc, line, r) {
        Err(NoMemory) => Err(NoMemory),
        Ok(found) => Ok(verdict_of(found)),
    }
}

fn outside_verdict(alloc: Global, line: &[u8], r: &Outside) -> Result<Verdict, NoMemory>
    requires short { length line.now ≤ line_limit }
    requires well_formed { IsWellFormedCarried r.now.carried }
    ensures { IfOk result (IsVerdictOn IsItemHigh (Report.Line line.now (Answer.Outside r.now))) }
{
    match outside_found(alloc, line, r) {
        Err(NoMemory) => Err(NoMemory),
        Ok(found) => Ok(verdict_of(found)),
    }
}

fn limit_verdict(alloc: Global, line: &[u8], r: &Limit) -> Result<Verdict, NoMemory>
    requires short { length line.now ≤ line_limit }
    requires well_formed { IsWellFormedLimit r.now }
    ensures { IfOk result (IsVerdictOn IsItemHigh (Report.Line line.now (Answer.Limit r.now))) }
{
    match limit_found(alloc, line, r) {
        Err(NoMemory) => Err(NoMemory),
        Ok(found) => Ok(verdict_of(found)),
    }
}

fn unresolved_verdict(alloc: Global, line: &[u8], r: &Unresolved) -> Result<Verdict, NoMemory>
    requires short { length line.now ≤ line_limit }
    requires well_formed { IsWellFormedUnresolved r.now }
    ensures { IfOk result (IsVerdictOn IsItemHigh (Report.Line line.now (Answer.Unresolved r.now))) }
{
    match unresolved_found(alloc, line, r) {
        Err(NoMemory) => Err(NoMemory),
        Ok(found) => Ok(verdict_of(found)),
    }
}

// The verdict on an answer to a line.
fn answer_verdict(alloc: Global, line: &[u8], answer: &Answer) -> Result<Verdict, NoMemory>
    requires short { length line.now ≤ line_limit }
    requires well_formed { IsWellFormedAnswer answer.now }
    ensures { IfOk result (IsVerdictOn IsItemHigh (Report.Line line.now answer.now)) }
{
    match answer {
        Answer::Syntax { column, what } => syntax_verdict(alloc, line, *column, *what),
        Answer::Literal { column } => literal_verdict(alloc, line, *column),
        Answer::NotCritical { variable } => not_critical_verdict(alloc, line, *variable),
        Answer::Range { .. } => Ok(Verdict::Unchecked),
        Answer::Unbuilt => Ok(Verdict::Unchecked),
        Answer::Named(named) => named_verdict(alloc, line, named),
        Answer::Outside(outside) => outside_verdict(alloc, line, outside),
        Answer::Limit(limit) => limit_verdict(alloc, line, limit),
        Answer::Unresolved(unresolved) => unresolved_verdict(alloc, line, unresolved),
    }
}

// The verdict on the report of a line that is too long.
fn long_verdict(size: u64) -> Verdict
    ensures { IsVerdictOn IsItemHigh (Report.Long size) result }
{
    verdict_on_refusal(decided(is_too_long(size)))
}

/// The verdict on a report, by its items in order.
///
/// A named report has the items germ, shape, inverse, carry, form, units, modulus, mather and milnor; an
/// outside report germ, shape, inverse, carry and pattern; a limit report germ, shape, inverse, carry
/// and functional; an unresolved report germ, shape, inverse, carry and mather; a refusal has one.
/// `Valid` says that all are true, `Invalid` names the first that is false, and `Range` one whose
/// calculation forms a number of height at least 2^120 where those before it are true. `Unchecked`
/// says that the report has no items: its answer is `range` or `unbuilt`.
pub fn check(alloc: Global, r: &Report) -> Result<Verdict, NoMemory>
    requires well_formed { IsWellFormed r.now }
    ensures verdict { IfOk result (IsVerdictOn IsItemHigh r.now) }
{
    match r {
        Report::Long { length } => Ok(long_verdict(*length)),
        Report::Line { line, answer } => answer_verdict(alloc, line.as_slice(), answer),
    }
}
