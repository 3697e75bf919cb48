//! Laws of the answers.

ghost use Rattle.lin_row.specs.Rows.{AnswersExclude};

use ring_law::Ring;

/// A target is a combination of the rows only where no functional excludes it.
pub fn answers_exclude<R: Ring>()
    ensures { (r : R) → R.is_ring r → AnswersExclude (R.meaning r) }
{}
