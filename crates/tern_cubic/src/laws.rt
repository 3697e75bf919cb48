//! The laws of the shape `Other`, each as the contract of a function with nothing to do.

ghost use Rattle.tern_cubic.specs.OtherShapes.{FailingIsOther, OthersAreUnknown};

/// A cubic that fails its rule by one of the vectors, lines, pairs of roots or ways to three points
/// that the rule allows meets no rule by any of them, so its shape is another one.
pub fn failing_is_other()
    ensures { FailingIsOther }
{}

/// What the linear move of a jet finds is neither a part nor a pattern exactly where the shape of
/// the cubic terms is another one.
pub fn others_are_unknown()
    ensures { OthersAreUnknown }
{}
