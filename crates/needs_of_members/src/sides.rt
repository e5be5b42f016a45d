//! The types of the last parts.
#![tactic(auto, using(check_work::proofs::Taking::taking))]

ghost use Rattle.std.specs.Prelude.{◌≡◌, IfSome};
ghost use Rattle.typed_tree.specs.Exprs.{type_of};
ghost use Rattle.check_words.specs.Words.{sem};
ghost use Rattle.needs_of_members.specs.Fronts.{AreSides};

use crate::named::Sides;
use check_work::last;
use type_model::{SemType, Ty};
use typed_tree::TypedExpr;

/// The type of the part.
fn type_in(part: &TypedExpr) -> &Ty
    ensures { result.now ≡ (type_of part.now).value }
{
    part.ty()
}

/// The type of the part, as a set of shapes.
pub(crate) fn shapes_of(part: &TypedExpr) -> &SemType
    ensures { result.now ≡ sem part.now }
{
    &part.ty().sem
}

/// The types of the last two parts.
pub(crate) fn last_sides(found: &[TypedExpr]) -> Option<Sides<'_>>
    ensures { IfSome result (λ s. AreSides found.now s.container.now s.key.now) }
{
    match found {
        [before @ .., key] => match last(before) {
            Some(container) => Some(Sides {
                container: type_in(container),
                key: shapes_of(key),
            }),
            None => None,
        },
        [] => None,
    }
}
