//! Mather's test and the truncated Milnor algebra of a carried germ, as a report holds them.

ghost use Rattle.std.specs.Prelude.{◌≤◌, IfOk};
ghost use Rattle.ring_law.specs.Refusals.{OnFault};
ghost use Rattle.ext_algebra.specs.Algebra.{IsIrreducible, ops, scalars};
ghost use Rattle.poly_law.specs.Polynomials.{StartsAtIn};
ghost use Rattle.determinacy.specs.Tests.{IsTestHigh};
ghost use Rattle.jet_quotient.specs.Quotients.{IsQuotientHigh};
ghost use Rattle.cert_text.specs.WellFormed.{IsWellFormedCarried};
ghost use Rattle.report_law.specs.Items.{residual_of};
ghost use Rattle.certificate.specs.Evidence.{IsReportedTest, IsReportedQuotient};

use cert_text::Carried;
use determinacy::{MatherTest, mather};
use ext_algebra::{AlgebraField, Ext};
use jet_quotient::quotient;
use milnor_alg::JetQuotient;
use report_jet::residual_jet;
use ring_law::{Fault, Frac, NoMemory};
use std::alloc::Global;

/// Mather's test of the residual part of a carried germ at its order, over a field and in at most
/// three residual variables: rows, or a functional that excludes them, as a report holds them.
///
/// Errors: `Range` only where the test forms a number of height 2^120 or more.
/// Source: J. Mather, Stability of C-infinity mappings III: finitely determined map-germs (1968).
pub fn test(alloc: Global, c: &Carried) -> Result<MatherTest<Ext<Frac>>, Fault>
    requires well_formed { IsWellFormedCarried c.now }
    requires field { IsIrreducible c.now.algebra }
    requires at_most_3_residual { c.now.corank ≤ 3 }
    requires low { StartsAtIn c.now.corank (ops c.now.algebra) 2 (residual_of c.now) }
    ensures test { IfOk result (IsReportedTest c.now) }
    ensures range { OnFault result (IsTestHigh c.now.corank (scalars c.now.algebra) c.now.order (residual_of c.now)) }
{
    let field = AlgebraField { algebra: c.algebra };
    match residual_jet(alloc, c) {
        Ok(g) => mather(alloc, &field, &g, c.order),
        Err(NoMemory) => Err(Fault::NoMemory),
    }
}

/// A basis and a table of the jets of the order modulo the partials of the residual part of a
/// carried germ, over a field and in at most three residual variables, as a report holds them.
///
/// Errors: `Range` only where the reduction forms a number of height 2^120 or more.
/// Source: Arnold, Gusein-Zade, Varchenko, Singularities of Differentiable Maps, volume 1.
pub fn milnor_algebra(alloc: Global, c: &Carried) -> Result<JetQuotient<Ext<Frac>>, Fault>
    requires well_formed { IsWellFormedCarried c.now }
    requires field { IsIrreducible c.now.algebra }
    requires at_most_3_residual { c.now.corank ≤ 3 }
    requires low { StartsAtIn c.now.corank (ops c.now.algebra) 2 (residual_of c.now) }
    ensures quotient { IfOk result (IsReportedQuotient c.now) }
    ensures range { OnFault result (IsQuotientHigh c.now.corank (scalars c.now.algebra) c.now.order (residual_of c.now)) }
{
    let field = AlgebraField { algebra: c.algebra };
    match residual_jet(alloc, c) {
        Ok(g) => quotient(alloc, &field, &g, c.order),
        Err(NoMemory) => Err(Fault::NoMemory),
    }
}
