//! What the test of a list of items finds.

ghost use Rattle.std.specs.Prelude.{◌≡◌, IfOk};
ghost use Rattle.cert_check.specs.Outcomes.{IsTestOf, refusal_verdict, tested_by, verdict_of as verdict_by};

use check_line::Tested;
use report_law::{Item, Verdict};
use ring_law::{Fault, NoMemory};

/// All items hold; the first that does not; or one with numbers that are too high, where those before
/// it hold.
#[derive(Clone, Copy, Debug, PartialEq, Eq)]
pub enum Found {
    Passed,
    Fails(Item),
    High(Item),
}

/// The answer of a test, where a refused operation says that a number is too high.
pub(crate) fn tested(answer: Result<bool, Fault>) -> Result<Tested, NoMemory>
    ensures { IfOk result (IsTestOf answer) }
{
    match answer {
        Ok(true) => Ok(Tested::Holds),
        Ok(false) => Ok(Tested::Fails),
        Err(Fault::Range(_)) => Ok(Tested::High),
        Err(Fault::NoMemory) => Err(NoMemory),
    }
}

/// The verdict by what was found of all items.
pub(crate) fn verdict_of(found: Found) -> Verdict
    ensures { result ≡ verdict_by found }
{
    match found {
        Found::Passed => Verdict::Valid,
        Found::Fails(item) => Verdict::Invalid { item },
        Found::High(item) => Verdict::Range { item },
    }
}

/// A test that is always decided.
pub(crate) fn decided(holds: bool) -> Tested
    ensures { result ≡ tested_by holds }
{
    if holds { Tested::Holds } else { Tested::Fails }
}

/// The verdict on a refusal.
pub(crate) fn verdict_on_refusal(answer: Tested) -> Verdict
    ensures { result ≡ refusal_verdict answer }
{
    let item = Item::Refusal;
    match answer {
        Tested::Holds => Verdict::Valid,
        Tested::Fails => Verdict::Invalid { item },
        Tested::High => Verdict::Range { item },
    }
}
