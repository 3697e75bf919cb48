//! Whether the jet of a report is a form of its family, or in its pattern.

ghost use Rattle.std.specs.Prelude.{IsTrue, ◌↔◌};
ghost use Rattle.cert_text.specs.WellFormed.{IsWellFormedCarried, IsWellFormedNamed};
ghost use Rattle.report_law.specs.Items.{IsForm, IsInPattern};

use cert_text::{Named, Outside};
use ext_algebra::AlgebraRing;
use normal_forms::{has_form, in_pattern};

/// True where the jet of a named report is a form of its family with its corank: it is split, and
/// each monomial without square variables is one of the family's sum. The units are not looked at.
pub fn is_named_form(r: &Named) -> bool
    requires well_formed { IsWellFormedNamed r.now }
    ensures form { IsTrue result ↔ IsForm r.now.family r.now.carried }
{
    has_form(r.family, r.carried.corank, &r.carried.jet)
}

/// True where the jet of an outside report is in its pattern with its corank: it is split, and each
/// monomial without square variables meets the pattern's condition.
pub fn is_in_pattern(r: &Outside) -> bool
    requires well_formed { IsWellFormedCarried r.now.carried }
    ensures pattern { IsTrue result ↔ IsInPattern r.now.pattern r.now.carried }
{
    let ring = AlgebraRing {
        algebra: r.carried.algebra,
    };
    in_pattern(&ring, r.pattern, r.carried.corank, &r.carried.jet)
}
