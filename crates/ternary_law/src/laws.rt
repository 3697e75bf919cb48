//! The laws, each as the contract of a function with nothing to do.

ghost use Rattle.ternary_law.specs.Laws.{RanksAreUnique, KernelsAreApart, AxisRuleIsUnique, PlaneRuleIsUnique, InversesAreUnique, ShapesAreUnique};

/// Rows have one rank.
pub fn ranks_are_unique()
    ensures { RanksAreUnique }
{}

/// A kernel of dimension 1 is neither 0 nor of dimension 2 or more.
pub fn kernels_are_apart()
    ensures { KernelsAreApart }
{}

/// The axis rule does not depend on which vector spans the kernel.
pub fn axis_rule_is_unique()
    ensures { AxisRuleIsUnique }
{}

/// The plane rule does not depend on which line spans the common lines.
pub fn plane_rule_is_unique()
    ensures { PlaneRuleIsUnique }
{}

/// A matrix of three rows has one inverse.
pub fn inverses_are_unique()
    ensures { InversesAreUnique }
{}

/// A ternary cubic has one shape, with one linear move.
pub fn shapes_are_unique()
    ensures { ShapesAreUnique }
{}
