//! What a test leaves of a type, where it holds and where it doesn't.
#![tactic(auto, using(crate::proofs::Over::overs))]

ghost use Rattle.std.specs.Prelude.{◌≡◌, IfOk, length};
ghost use Rattle.checks.specs.Checks.{Comes};
ghost use Rattle.flow_narrowing.specs.Narrowed.{WhereTrue};
ghost use Rattle.type_model.specs.Defined.{TyBelow};
ghost use Rattle.check_words.specs.Joins.{narrows_to, where_false as where_false_of};
ghost use Rattle.check_kinds.specs.Over.{ComesOver};

use bal_base::{Fault, FaultCode, Kept, Memory, Place, Stop};
use flow_narrowing::{narrow_false, narrow_true};
use std::alloc::Global;
use std::rc::Rc;
use type_model::{Ty, Types};
use typed_tree::SharedTy;

/// The types that a test for `t` leaves of `s`: where it holds, and where it doesn't. It asks four questions at most.
/// `TypeLimit` at the place where one of them is too large.
pub fn narrowed<T: Types>(
    alloc: Global,
    types: &mut T,
    s: &SharedTy,
    t: &SharedTy,
    at: Place,
) -> Result<(SharedTy, SharedTy), Stop<Fault>>
    requires left { TyBelow (length (T.atoms types.old)) s.now.value }
    requires right { TyBelow (length (T.atoms types.old)) t.now.value }
    ensures atoms { T.atoms types.new ≡ T.atoms types.old }
    ensures yes { IfOk result (λ both. TyBelow (length (T.atoms types.old)) both.0.value) }
    ensures no { IfOk result (λ both. TyBelow (length (T.atoms types.old)) both.1.value) }
    ensures comes { ComesOver (narrows_to T.passes s.now t.now at) (T.atoms types.old) result (T.atoms types.new) }
{
    match where_true(alloc, types, s, t) {
        Ok(yes) => match where_false(alloc, types, s, t, at) {
            Ok(no) => Ok((yes, no)),
            Err(stop) => Err(stop),
        },
        Err(Memory) => Err(Stop::Memory),
    }
}

/// The type where the test holds, to be shared.
fn where_true<T: Types>(alloc: Global, types: &mut T, s: &Ty, t: &Ty) -> Result<SharedTy, Memory>
    requires left { TyBelow (length (T.atoms types.old)) s.now }
    requires right { TyBelow (length (T.atoms types.old)) t.now }
    ensures atoms { T.atoms types.new ≡ T.atoms types.old }
    ensures below { IfOk result (λ u. TyBelow (length (T.atoms types.old)) u.value) }
    ensures is { IfOk result (λ u. WhereTrue (T.atoms types.old) s.now t.now u.value) }
{
    let u = narrow_true(alloc, types, s, t)?;
    Ok(Rc::new(alloc, u)?)
}

/// `TypeLimit` at the place.
fn too_large(at: Place) -> Stop<Fault>
    ensures { result ≡ Stop.Fault (record { code = FaultCode.TypeLimit; at = Some at; kept = Kept.Nothing }) }
{
    Stop::Fault(Fault {
        code: FaultCode::TypeLimit,
        at: Some(at),
        kept: Kept::Nothing,
    })
}

/// The type where it doesn't hold, to be shared.
#[tactic(auto, unfolding(checks::specs::Checks::Comes, check_words::specs::Joins::where_false))]
fn where_false<T: Types>(
    alloc: Global,
    types: &mut T,
    s: &Ty,
    t: &Ty,
    at: Place,
) -> Result<SharedTy, Stop<Fault>>
    requires left { TyBelow (length (T.atoms types.old)) s.now }
    requires right { TyBelow (length (T.atoms types.old)) t.now }
    ensures atoms { T.atoms types.new ≡ T.atoms types.old }
    ensures below { IfOk result (λ u. TyBelow (length (T.atoms types.old)) u.value) }
    ensures comes { Comes (where_false_of T.passes s.now t.now at) (T.atoms types.old) result (T.atoms types.new) }
{
    match narrow_false(alloc, types, s, t) {
        Ok(u) => Ok(Rc::new(alloc, u)?),
        Err(Stop::Fault(_)) => Err(too_large(at)),
        Err(Stop::Memory) => Err(Stop::Memory),
    }
}
