//! Whether a type has just one shape, an int or a string.
ghost use Rattle.std.specs.Prelude.{◌≡◌, Some};
ghost use Rattle.type_model.specs.Defined.{IsDefined};
ghost use Rattle.checks.specs.Checks.{Comes};
ghost use Rattle.checks.specs.Questions.{IsLimitAt};
ghost use Rattle.check_members.specs.Only.{IsCandidate, IsIntOrText, candidate_of, if_so, only_shape as only_shape_of};

use bal_base::{Fault, FaultCode, Kept, Place, Shape, Stop};
use check_kinds::constant_set;
use checks::is_below;
use operations::Constant;
use std::alloc::Global;
use type_model::{SemType, TypeLimit, Types};

/// `TypeLimit` at the place for a question that is too large; want of memory passes.
fn too_large(stop: Stop<TypeLimit>, at: Place) -> Stop<Fault>
    ensures { IsLimitAt (Some at) stop result }
{
    match stop {
        Stop::Fault(_) => Stop::Fault(Fault {
            code: FaultCode::TypeLimit,
            at: Some(at),
            kept: Kept::Nothing,
        }),
        Stop::Memory => Stop::Memory,
    }
}

fn in_shape(shape: &Shape) -> Option<Constant>
    ensures { result ≡ candidate_of (Some shape.now) }
{
    match shape {
        Shape::Int(i) => Some(Constant::Int(*i)),
        Shape::Str(text) => Some(Constant::Str(text.share())),
        Shape::Nil | Shape::Bool(_) => None,
        Shape::List { .. } | Shape::Mapping { .. } => None,
        Shape::Error { .. } | Shape::Function { .. } | Shape::Future { .. } => None,
    }
}

fn in_found(found: &Option<Shape>) -> Option<Constant>
    ensures { result ≡ candidate_of found.now }
{
    match found {
        Some(shape) => in_shape(shape),
        None => None,
    }
}

/// The int or string that was found; the shape is given up.
fn candidate(found: Option<Shape>) -> Option<Constant>
    ensures { result ≡ candidate_of found }
{
    in_found(&found)
}

fn kept_if(so: bool, value: Constant) -> Option<Constant>
    ensures { result ≡ if_so so value }
{
    match so {
        true => Some(value),
        false => None,
    }
}

/// The int or string that is the only shape of the type, if there is one. It costs a search for a shape, and then one question.
pub(crate) fn only_shape<T: Types>(
    alloc: Global,
    types: &mut T,
    t: &SemType,
    at: Place,
) -> Result<Option<Constant>, Stop<Fault>>
    requires { IsDefined (T.atoms types.old) t.now }
    ensures atoms { T.atoms types.new ≡ T.atoms types.old }
    ensures comes { Comes (only_shape_of T.passes t.now at) (T.atoms types.old) result (T.atoms types.new) }
{
    match types.has_shape(alloc, t) {
        Ok(found) => settled(alloc, types, t, candidate(found), at),
        Err(stop) => Err(too_large(stop, at)),
    }
}

/// The same, where only this one may be.
fn settled<T: Types>(
    alloc: Global,
    types: &mut T,
    t: &SemType,
    candidate: Option<Constant>,
    at: Place,
) -> Result<Option<Constant>, Stop<Fault>>
    requires defined { IsDefined (T.atoms types.old) t.now }
    requires candidate { IsCandidate (T.atoms types.old) t.now candidate }
    ensures atoms { T.atoms types.new ≡ T.atoms types.old }
    ensures comes { Comes (only_shape_of T.passes t.now at) (T.atoms types.old) result (T.atoms types.new) }
{
    match candidate {
        Some(value) => asked(alloc, types, t, value, at),
        None => Ok(None),
    }
}

/// The value, if it is the only shape of the type.
fn asked<T: Types>(
    alloc: Global,
    types: &mut T,
    t: &SemType,
    value: Constant,
    at: Place,
) -> Result<Option<Constant>, Stop<Fault>>
    requires defined { IsDefined (T.atoms types.old) t.now }
    requires candidate { IsCandidate (T.atoms types.old) t.now (Some value) }
    ensures atoms { T.atoms types.new ≡ T.atoms types.old }
    ensures comes { Comes (only_shape_of T.passes t.now at) (T.atoms types.old) result (T.atoms types.new) }
{
    let one = SemType::Basic(constant_set(&value));
    match is_below(alloc, types, t, &one, Some(at)) {
        Ok(so) => Ok(kept_if(so, value)),
        Err(stop) => Err(stop),
    }
}
