//! Worked examples of the definitions, each the contract of a function that does nothing.

ghost use Rattle.poly_law.specs.Examples.{SquareOfSum, PartialsOfE7, SquareCompleted, E7FailsAt4, E7HasNoRowsAt4, E7HoldsAt5};

/// (x + y)^2 = x^2 + 2*x*y + y^2.
pub fn square_of_sum()
    ensures { SquareOfSum }
{}

/// The partial derivatives of x^3 + x*y^3.
pub fn partials_of_e7()
    ensures { PartialsOfE7 }
{}

/// A change of coordinates that completes the square of x^2 + 2*x*y^2 + y^5 up to degree 4.
pub fn square_completed()
    ensures { SquareCompleted }
{}

/// A functional that shows that Mather's condition fails at 4 for x^3 + x*y^3.
pub fn e7_fails_at_4()
    ensures { E7FailsAt4 }
{}

/// Mather's condition does not hold at 4 for x^3 + x*y^3.
pub fn e7_has_no_rows_at_4()
    ensures { E7HasNoRowsAt4 }
{}

/// Mather's condition holds at 5 for x^3 + x*y^3.
pub fn e7_holds_at_5()
    ensures { E7HoldsAt5 }
{}
