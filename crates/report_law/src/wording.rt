//! The words of items, verdicts and findings.

ghost use Rattle.std.specs.Prelude.{◌≡◌, ◌++◌, OnOk};
ghost use Rattle.report_law.specs.Verdicts.{finding_text, item_text, verdict_text};

use crate::item::Item;
use crate::verdict::{Finding, Verdict};
use poly_text::put_number;
use std::alloc::AllocError;

/// The word of an item.
#[tactic(auto, unfolding(crate::specs::Verdicts::item_text))]
pub fn item_bytes(item: Item) -> &'static [u8]
    ensures { result.now ≡ item_text item }
{
    match item {
        Item::Refusal => b"refusal",
        Item::Germ => b"germ",
        Item::Shape => b"shape",
        Item::Inverse => b"inverse",
        Item::Carry => b"carry",
        Item::Form => b"form",
        Item::Units => b"units",
        Item::Modulus => b"modulus",
        Item::Mather => b"mather",
        Item::Milnor => b"milnor",
        Item::Functional => b"functional",
        Item::Pattern => b"pattern",
    }
}

/// Appends the words of a verdict.
#[tactic(auto, unfolding(crate::specs::Verdicts::verdict_text))]
pub fn put_verdict(out: &mut Vec<u8>, verdict: Verdict) -> Result<(), AllocError>
    ensures { OnOk result (out.new.items ≡ out.old.items ++ verdict_text verdict) }
{
    match verdict {
        Verdict::Valid => out.extend_from_slice(b"valid"),
        Verdict::Unchecked => out.extend_from_slice(b"unchecked"),
        Verdict::Invalid { item } => {
            out.extend_from_slice(b"invalid ")?;
            out.extend_from_slice(item_bytes(item))
        }
        Verdict::Range { item } => {
            out.extend_from_slice(b"range ")?;
            out.extend_from_slice(item_bytes(item))
        }
    }
}

/// Appends the words of a finding.
#[tactic(auto, unfolding(crate::specs::Verdicts::finding_text))]
pub fn put_finding(out: &mut Vec<u8>, finding: Finding) -> Result<(), AllocError>
    ensures { OnOk result (out.new.items ≡ out.old.items ++ finding_text finding) }
{
    match finding {
        Finding::Report(verdict) => put_verdict(out, verdict),
        Finding::BadText { offset } => {
            out.extend_from_slice(b"invalid text ")?;
            put_number(out, offset)?;
            Ok(())
        }
    }
}
