//! Shapes of types and of parts.
ghost use Rattle.std.specs.Prelude.{◌≡◌};
ghost use Rattle.typed_tree.specs.SharedTypes.{sem_of};
ghost use Rattle.check_words.specs.Words.{sem};

use type_model::SemType;
use typed_tree::{SharedTy, TypedExpr};

/// The shapes of the type.
pub(crate) fn shapes_in(t: &SharedTy) -> &SemType
    ensures { result.now ≡ sem_of t.now }
{
    &t.sem
}

/// The shapes of the part's type.
pub(crate) fn shapes_of(e: &TypedExpr) -> &SemType
    ensures { result.now ≡ sem e.now }
{
    shapes_in(e.ty())
}
