//! Laws of values.
ghost use Rattle.value_model.specs.Laws.{BelongingIsStable, ShapeIsOne};

/// What a value belongs to does not change while the heap grows.
pub fn belonging_is_stable()
    ensures { BelongingIsStable }
{}

/// A simple value, an immutable structure or an error has one shape at most; other values have none of their own.
pub fn shape_is_one()
    ensures { ShapeIsOne }
{}
