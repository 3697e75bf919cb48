//! The laws, each as the contract of a function with nothing to do.

ghost use Rattle.ring_theory.specs.Laws.{IntegersAreRing, RationalsAreField, RationalsAreScalars, RationalsHaveHeights, RationalsHaveInverseHeights};

/// The whole numbers are a commutative ring.
pub fn integers_are_ring()
    ensures { IntegersAreRing }
{}

/// The rational numbers in lowest terms are a field.
pub fn rationals_are_field()
    ensures { RationalsAreField }
{}

/// The rational numbers contain themselves, 1 differs from 0, and the test for zero tells.
pub fn rationals_are_scalars()
    ensures { RationalsAreScalars }
{}

/// The height of a rational number is at most that of a product, a sum or an inverse that has it as result.
pub fn rational_heights()
    ensures results { RationalsHaveHeights }
    ensures inverses { RationalsHaveInverseHeights }
{}
