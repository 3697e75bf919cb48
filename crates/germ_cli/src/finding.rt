//! The line for one chunk.
ghost use Rattle.cert_check.specs.Heights.{IsItemHigh};
ghost use Rattle.cert_text.specs.Text.{line};
ghost use Rattle.germ_cli.specs.Checking.{IsAnswerTo, is_invalid};
ghost use Rattle.report_law.specs.Verdicts.{IsVerdict, finding_text};
ghost use Rattle.std.specs.Prelude.{◌≡◌, IfOk};

use cert_check::check;
use report_law::{Finding, Verdict, put_finding};
use report_reader::{ReadError, read_report};
use ring_law::NoMemory;
use std::alloc::{AllocError, Global};

/// The line for a chunk, and whether it begins with `invalid`.
#[derive(Drop)]
pub struct Answer {
    pub text: Vec<u8>,
    pub invalid: bool,
}

// What is found of a chunk: the verdict on the report that it is the text of, or how far it is like
// one.
fn finding_of(alloc: Global, chunk: &[u8]) -> Result<Finding, NoMemory>
    ensures { IfOk result (IsVerdict IsItemHigh chunk.now) }
{
    match read_report(alloc, chunk) {
        Ok(report) => match check(alloc, &report) {
            Ok(verdict) => Ok(Finding::Report(verdict)),
            Err(error) => Err(error),
        },
        Err(error) => match error {
            ReadError::BadText { offset } => Ok(Finding::BadText { offset }),
            ReadError::NoMemory => Err(NoMemory),
        },
    }
}

// The line of what is found.
#[tactic(auto, unfolding(cert_text::specs::Text::line))]
fn line_of_finding(alloc: Global, found: Finding) -> Result<Vec<u8>, AllocError>
    ensures { IfOk result (λ text. text.items ≡ line (finding_text found)) }
{
    let mut text = Vec::new(alloc);
    put_finding(&mut text, found)?;
    text.push(b'\n')?;
    Ok(text)
}

// The words of the verdict begin with `invalid`.
fn is_refusal(verdict: Verdict) -> bool
    ensures { result ≡ is_invalid (Finding.Report verdict) }
{
    match verdict {
        Verdict::Valid => false,
        Verdict::Unchecked => false,
        Verdict::Invalid { .. } => true,
        Verdict::Range { .. } => false,
    }
}

// The line of what is found begins with `invalid`.
fn is_refused(found: Finding) -> bool
    ensures { result ≡ is_invalid found }
{
    match found {
        Finding::Report(verdict) => is_refusal(verdict),
        Finding::BadText { .. } => true,
    }
}

/// The line for a chunk.
pub fn answer_to(alloc: Global, chunk: &[u8]) -> Result<Answer, NoMemory>
    ensures { IfOk result (λ answer. IsAnswerTo chunk.now answer.text.items answer.invalid) }
{
    let found = match finding_of(alloc, chunk) {
        Ok(found) => found,
        Err(error) => return Err(error),
    };
    let Ok(text) = line_of_finding(alloc, found) else {
        return Err(NoMemory);
    };
    Ok(Answer {
        text,
        invalid: is_refused(found),
    })
}
