//! What the shapes of forms say, as laws over every field and every ring that it maps to.

ghost use Rattle.bin_forms.specs.Laws.{DistinctCubics, DistinctQuartics, QuarticsAreAsShaped};

use ring_law::{Field, Ring};

/// A cubic whose discriminant is not zero is divided by the square of no line over any ring to
/// which the field maps.
pub fn distinct_cubics<F: Field, R: Ring>()
    ensures { (k : F) → F.is_ring k → (r : R) → R.is_ring r → DistinctCubics (F.meaning k).scalars (R.meaning r).scalars.ops }
{}

/// A quartic whose discriminant is not zero is divided by the square of no line over any ring to
/// which the field maps.
pub fn distinct_quartics<F: Field, R: Ring>()
    ensures { (k : F) → F.is_ring k → (r : R) → R.is_ring r → DistinctQuartics (F.meaning k).scalars (R.meaning r).scalars.ops }
{}

/// What the shape of a quartic says of its lines holds.
pub fn quartics_are_as_shaped<F: Field>()
    ensures { (k : F) → F.is_ring k → QuarticsAreAsShaped (F.meaning k).scalars }
{}
