//! What holds of the plan of every germ, each as the contract of a function with nothing to do.

ghost use Rattle.plan_law.specs.Laws.{PlansHaveOneOutcome, PlansAreOverFields};

/// The plan of a germ and an order limit has at most one outcome.
pub fn plans_have_one_outcome()
    ensures { PlansHaveOneOutcome }
{}

/// The modulus in t of the algebra of an outcome has no rational root, and over a tower d is the
/// square of no fraction, so the algebra is a field.
pub fn plans_are_over_fields()
    ensures { PlansAreOverFields }
{}
