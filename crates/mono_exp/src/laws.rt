//! Laws of the monomial order and of the list of all monomials.

ghost use Rattle.mono_exp.specs.Laws.{MonomialsAreWhole, MonomialsRise, RanksRise, RanksDiffer};

/// The list of all monomials of a degree is whole.
pub fn monomials_are_whole()
    ensures { MonomialsAreWhole }
{}

/// The list of all monomials of a degree is in the monomial order.
pub fn monomials_rise()
    ensures { MonomialsRise }
{}

/// Numbers of monomials keep the order.
pub fn ranks_rise()
    ensures { RanksRise }
{}

/// Different monomials have different numbers.
pub fn ranks_differ()
    ensures { RanksDiffer }
{}
