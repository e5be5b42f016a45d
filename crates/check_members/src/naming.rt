//! Which members indexes and keys name.
ghost use Rattle.std.specs.Prelude.{◌≡◌, Some};
ghost use Rattle.operations.specs.declared.operation.Constant.TheVariants.{Int as IntConstant};
ghost use Rattle.type_model.specs.Defined.{IsDefined};
ghost use Rattle.check_kinds.specs.Over.{ComesOver};
ghost use Rattle.check_words.specs.Members.{names_members as names_members_of};
ghost use Rattle.check_words.specs.Words.{asking};
ghost use Rattle.check_members.specs.Only.{fields_at, items_at, members_at};

use crate::only::only_shape;
use bal_base::{Fault, Place, Stop};
use check_words::Access;
use operations::Constant;
use std::alloc::Global;
use type_model::{Keys, SemType, Types};

fn item(i: i64) -> Keys
    ensures { result ≡ items_at (Some (IntConstant i)) }
{
    if i < 0 {
        return Keys::AnyIndex;
    }
    Keys::Index(i as u64)
}

fn items_of(only: Constant) -> Keys
    ensures { result ≡ items_at (Some only) }
{
    match only {
        Constant::Int(i) => item(i),
        Constant::Nil | Constant::Bool(_) | Constant::Str(_) => Keys::AnyIndex,
    }
}

/// The items that an index names which is this int alone, or any.
fn items(only: Option<Constant>) -> Keys
    ensures { result ≡ items_at only }
{
    match only {
        Some(only) => items_of(only),
        None => Keys::AnyIndex,
    }
}

fn fields_of(only: Constant) -> Keys
    ensures { result ≡ fields_at (Some only) }
{
    match only {
        Constant::Str(text) => Keys::Field(text),
        Constant::Nil | Constant::Bool(_) | Constant::Int(_) => Keys::AnyField,
    }
}

/// The members that a key names which is this string alone, or any.
fn fields(only: Option<Constant>) -> Keys
    ensures { result ≡ fields_at only }
{
    match only {
        Some(only) => fields_of(only),
        None => Keys::AnyField,
    }
}

fn members(access: Access, only: Option<Constant>) -> Keys
    ensures { result ≡ members_at access only }
{
    match access {
        Access::Char | Access::Item => items(only),
        Access::Key => fields(only),
    }
}

/// Which members an index or a key of the type names: one, where the type has just one int from 0 on, or just one string, and else all
/// of them. It asks two questions at most; `TypeLimit` at the place where one is too large.
pub fn names_members<T: Types>(
    alloc: Global,
    types: &mut T,
    access: Access,
    t: &SemType,
    at: Place,
) -> Result<Keys, Stop<Fault>>
    requires { IsDefined (T.atoms types.old) t.now }
    ensures atoms { T.atoms types.new ≡ T.atoms types.old }
    ensures comes { ComesOver (asking (names_members_of T.passes access t.now at)) (T.atoms types.old) result (T.atoms types.new) }
{
    match only_shape(alloc, types, t, at) {
        Ok(only) => Ok(members(access, only)),
        Err(stop) => Err(stop),
    }
}
