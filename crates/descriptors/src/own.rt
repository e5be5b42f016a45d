//! The types that are keywords.
ghost use Rattle.std.specs.Prelude.{◌≡◌, ℕ, IfOk, List, Ok as Made};
ghost use Rattle.bal_tree.specs.declared.types.BuiltinType.TheVariants.{Any, Boolean};
ghost use Rattle.type_model.specs.declared.basic.SemType.{Basic as IsBasic};
ghost use Rattle.type_model.specs.declared.atoms.AtomDef.{AtomDef as Atom};
ghost use Rattle.type_model.specs.Defined.{TyBelow};
ghost use Rattle.descriptors.specs.Described.{IsAnyFunction, IsBuiltin, plain as plain_of};
ghost use Rattle.descriptors.specs.Drafts.{AreNamesBelow};
ghost use Rattle.descriptors.specs.Steps.{AreOwnTypes};

use crate::names::Names;
use crate::together::{copy, plain};
use bal_base::Memory;
use bal_tree::BuiltinType;
use std::alloc::Global;
use type_model::{BasicSet, SemType, Ty};

/// The type that is a keyword.
pub(crate) fn builtin_type(alloc: Global, names: &Names, builtin: BuiltinType) -> Result<Ty, Memory>
    ensures is { IfOk result (λ t. (env : List Atom) → AreOwnTypes env names.now.own → IsBuiltin builtin env t) }
    ensures defined { IfOk result (λ t. (n : ℕ) → AreNamesBelow names.now n → TyBelow n t) }
{
    match builtin {
        BuiltinType::Int => basic(alloc, BasicSet::IntRange(i64::MIN, i64::MAX)),
        BuiltinType::String => basic(alloc, BasicSet::StringAll),
        BuiltinType::Boolean => boolean(alloc),
        BuiltinType::Byte => basic(alloc, BasicSet::IntRange(0, 255)),
        BuiltinType::Any => any(alloc),
        BuiltinType::AnyData => copy(alloc, &names.own.anydata),
        BuiltinType::Never => basic(alloc, BasicSet::Never),
        BuiltinType::ReadOnly => basic(alloc, BasicSet::Readonly),
    }
}

fn basic(alloc: Global, set: BasicSet) -> Result<Ty, Memory>
    ensures { result ≡ Made (plain_of (IsBasic set)) }
{
    Ok(plain(alloc, SemType::Basic(set)))
}

fn boolean(alloc: Global) -> Result<Ty, Memory>
    ensures is { IfOk result (λ t. (env : List Atom) → IsBuiltin Boolean env t) }
    ensures defined { IfOk result (TyBelow 0) }
{
    let yes = Box::new(alloc, SemType::Basic(BasicSet::Bool(true)))?;
    let no = Box::new(alloc, SemType::Basic(BasicSet::Bool(false)))?;
    Ok(plain(alloc, SemType::Or(yes, no)))
}

/// Every shape except errors.
fn any(alloc: Global) -> Result<Ty, Memory>
    ensures is { IfOk result (λ t. (env : List Atom) → IsBuiltin Any env t) }
    ensures defined { IfOk result (TyBelow 0) }
{
    let errors = Box::new(alloc, SemType::Basic(BasicSet::ErrorAll))?;
    Ok(plain(alloc, SemType::Not(errors)))
}

/// All functions, or all isolated ones.
pub(crate) fn any_function(alloc: Global, names: &Names, isolated: bool) -> Result<Ty, Memory>
    ensures is { IfOk result (λ t. (env : List Atom) → AreOwnTypes env names.now.own → IsAnyFunction isolated env t) }
    ensures defined { IfOk result (λ t. (n : ℕ) → AreNamesBelow names.now n → TyBelow n t) }
{
    if isolated {
        Ok(plain(alloc, SemType::Atom(names.own.isolated)))
    } else {
        basic(alloc, BasicSet::FunctionAll)
    }
}
