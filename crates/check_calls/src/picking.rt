//! The method that is meant.
#![tactic(auto, using(crate::proofs::PickedMethods::outs))]

ghost use Rattle.std.specs.Prelude.{◌≡◌};
ghost use Rattle.type_model.specs.Defined.{IsDefined};
ghost use Rattle.typed_tree.specs.declared.expr.TypedExpr.{TypedExpr};
ghost use Rattle.descriptors.specs.Steps.{AreOwnTypes};
ghost use Rattle.check_words.specs.Calls.{is_receiver};
ghost use Rattle.check_words.specs.Library.{row_of};
ghost use Rattle.check_words.specs.Words.{sem};
ghost use Rattle.check_kinds.specs.Over.{ComesOver};
ghost use Rattle.check_calls.specs.Picking.{IsNoMethod, picks_among, picks_methods, row_if};

use bal_base::{Fault, FaultCode, Kept, Name, Place, Stop};
use check_kinds::is_of_kind;
use check_library::{METHODS, is_named, receiver};
use descriptors::OwnTypes;
use operations::LibraryCall;
use std::alloc::Global;
use type_model::{SemType, Types};

fn no_method(at: Place) -> Stop<Fault>
    ensures { IsNoMethod at result }
{
    Stop::Fault(Fault {
        code: FaultCode::NoField,
        at: Some(at),
        kept: Kept::Nothing,
    })
}

/// Whether the type is of the kind of which the call is a method.
fn fits<T: Types>(
    alloc: Global,
    types: &mut T,
    own: &OwnTypes,
    s: &SemType,
    call: LibraryCall,
    at: Place,
) -> Result<bool, Stop<Fault>>
    requires own { AreOwnTypes (T.atoms types.old) own.now }
    requires defined { IsDefined (T.atoms types.old) s.now }
    ensures atoms { T.atoms types.new ≡ T.atoms types.old }
    ensures comes { (e : TypedExpr) → sem e ≡ s.now → ComesOver (is_receiver T.passes (row_of call).receiver e at) (T.atoms types.old) result (T.atoms types.new) }
{
    match receiver(call) {
        Some(kind) => is_of_kind(alloc, types, own, s, kind, at),
        None => Ok(true),
    }
}

/// Methods that are looked for by name, at a place.
#[derive(Clone, Copy)]
struct Sought<'a> {
    calls: &'a [LibraryCall],
    name: &'a Name,
    at: Place,
}

/// The first of these calls that has the name and is a method of the type.
fn pick_among<T: Types>(
    alloc: Global,
    types: &mut T,
    own: &OwnTypes,
    s: &SemType,
    sought: Sought<'_>,
) -> Result<LibraryCall, Stop<Fault>>
    requires own { AreOwnTypes (T.atoms types.old) own.now }
    requires defined { IsDefined (T.atoms types.old) s.now }
    ensures atoms { T.atoms types.new ≡ T.atoms types.old }
    ensures comes { (e : TypedExpr) → sem e ≡ s.now → ComesOver (picks_among T.passes sought.entry.name.now sought.entry.calls.now e sought.entry.at) (T.atoms types.old) (row_if result) (T.atoms types.new) }
{
    for call in sought.calls {
        if !is_named(*call, sought.name) {
            continue;
        }
        match fits(alloc, types, own, s, *call, sought.at) {
            Ok(so) => {
                if so {
                    return Ok(*call);
                }
            }
            Err(stop) => return Err(stop),
        }
    }
    Err(no_method(sought.at))
}

/// The first method of the name that a value of the type has.
///
/// - `NoField` at the place: it has none.
/// - `TypeLimit` at the place: a question whether the type is of a method's kind is too large.
pub fn pick<T: Types>(
    alloc: Global,
    types: &mut T,
    own: &OwnTypes,
    s: &SemType,
    name: &Name,
    at: Place,
) -> Result<LibraryCall, Stop<Fault>>
    requires own { AreOwnTypes (T.atoms types.old) own.now }
    requires defined { IsDefined (T.atoms types.old) s.now }
    ensures atoms { T.atoms types.new ≡ T.atoms types.old }
    ensures comes { (e : TypedExpr) → sem e ≡ s.now → ComesOver (picks_methods T.passes name.now e at) (T.atoms types.old) (row_if result) (T.atoms types.new) }
{
    let sought = Sought {
        calls: &METHODS,
        name,
        at,
    };
    pick_among(alloc, types, own, s, sought)
}
