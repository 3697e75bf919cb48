//! The residual part of the jet of a report.

ghost use Rattle.std.specs.Prelude.{◌≡◌, IfOk};
ghost use Rattle.ext_algebra.specs.Algebra.{algebra_meaning, value_in};
ghost use Rattle.jet_law.specs.Terms.{poly_of};
ghost use Rattle.jet_poly.specs.Jets.{IsJet};
ghost use Rattle.normal_forms.specs.Monomials.{residual_terms as residual_terms_of};
ghost use Rattle.cert_text.specs.WellFormed.{IsWellFormedCarried};
ghost use Rattle.report_law.specs.Items.{residual_of};

use cert_text::Carried;
use ext_algebra::Ext;
use jet_poly::Jet;
use mono_exp::Exp;
use normal_forms::is_residual_monomial;
use ring_law::{Frac, NoMemory};
use std::alloc::Global;

// The terms without square variables, with corank c.
#[tactic(auto, unfolding(normal_forms::specs::Monomials::residual_terms))]
fn residual_terms(
    alloc: Global,
    c: u8,
    terms: &[(Exp, Ext<Frac>)],
) -> Result<Vec<(Exp, Ext<Frac>)>, NoMemory>
    ensures { IfOk result (λ v. v.items ≡ residual_terms_of c terms.now) }
{
    let mut kept = Vec::new(alloc);
    for t in terms {
        if is_residual_monomial(c, t.0) {
            kept.push(*t)?;
        }
    }
    Ok(kept)
}

/// The residual part of the jet of a report: its terms without square variables, as a jet in the
/// residual variables.
pub fn residual_jet(alloc: Global, c: &Carried) -> Result<Jet<Ext<Frac>>, NoMemory>
    requires well_formed { IsWellFormedCarried c.now }
    ensures jet { IfOk result (IsJet (algebra_meaning c.now.algebra)) }
    ensures n { IfOk result (λ f. f.n ≡ c.now.corank) }
    ensures order { IfOk result (λ f. f.order ≡ c.now.order) }
    ensures polynomial { IfOk result (λ f. poly_of c.now.corank (value_in c.now.algebra) f.terms ≡ residual_of c.now) }
{
    let terms = residual_terms(alloc, c.corank, c.jet.terms())?;
    Ok(Jet::from_rising(c.corank, c.order, terms))
}
