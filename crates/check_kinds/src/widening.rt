//! Types of variables that are declared by `var`.
#![tactic(auto, using(crate::proofs::Over::overs))]

ghost use Rattle.std.specs.Prelude.{◌≡◌, IfOk, length};
ghost use Rattle.descriptors.specs.Steps.{AreOwnTypes};
ghost use Rattle.type_model.specs.Defined.{TyBelow};
ghost use Rattle.check_words.specs.Values.{widened as widened_of};
ghost use Rattle.check_kinds.specs.Over.{ComesOver};

use crate::asking::is_of_kind;
use crate::shared::kind_shared;
use bal_base::{Fault, Place, Stop};
use descriptors::OwnTypes;
use expr_needs::Kind;
use std::alloc::Global;
use type_model::Types;
use typed_tree::SharedTy;

/// The kinds that types below them are widened to.
const WIDE: [Kind; 3] = [Kind::Integer, Kind::Text, Kind::Truth];

/// What a variable has that is declared by `var` with a value of this type ("Local variable declaration statement"): the type, or where
/// it is below int, string or boolean that type. It costs three questions at most. `TypeLimit` at the place where one of them is too
/// large.
pub fn widened<T: Types>(
    alloc: Global,
    types: &mut T,
    own: &OwnTypes,
    t: SharedTy,
    at: Place,
) -> Result<SharedTy, Stop<Fault>>
    requires own { AreOwnTypes (T.atoms types.old) own.now }
    requires below { TyBelow (length (T.atoms types.old)) t.value }
    ensures atoms { T.atoms types.new ≡ T.atoms types.old }
    ensures below { IfOk result (λ u. TyBelow (length (T.atoms types.old)) u.value) }
    ensures comes { ComesOver (widened_of T.passes t at) (T.atoms types.old) result (T.atoms types.new) }
{
    for kind in WIDE {
        match is_of_kind(alloc, types, own, &t.sem, kind, at) {
            Ok(true) => return Ok(kind_shared(alloc, own, kind)?),
            Ok(false) => {}
            Err(stop) => return Err(stop),
        }
    }
    Ok(t)
}
