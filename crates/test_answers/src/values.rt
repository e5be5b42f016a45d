//! The values of an atom as a type.
ghost use Rattle.std.specs.Prelude.{◌≡◌, ◌<◌, IfOk, length};
ghost use Rattle.type_model.specs.declared.basic.BasicSet.TheVariants.{Readonly};
ghost use Rattle.type_model.specs.declared.basic.SemType.{Atom};
ghost use Rattle.code_verifier.specs.KindSets.{IsAllBut, IsBoth};
ghost use Rattle.test_answers.specs.ValueTypes.{IsOfValues, IsValueType};

use bal_base::Memory;
use std::alloc::Global;
use type_model::{AtomDef, BasicSet, SemType, Types};

/// The atom, and not `readonly`.
fn open_atom(alloc: Global, a: u32) -> Result<SemType, Memory>
    ensures { IfOk result (IsBoth (λ s. s ≡ Atom a) (IsAllBut Readonly)) }
{
    let readonly = Box::new(alloc, SemType::Basic(BasicSet::Readonly))?;
    let open = Box::new(alloc, SemType::Not(readonly))?;
    Ok(SemType::And(Box::new(alloc, SemType::Atom(a))?, open))
}

/// The type of what is made with the atom of this definition.
fn type_of(alloc: Global, a: u32, def: &AtomDef) -> Result<SemType, Memory>
    ensures { IfOk result (IsOfValues a def.now) }
{
    match def {
        AtomDef::List { .. } | AtomDef::Mapping { .. } => open_atom(alloc, a),
        AtomDef::Arrow { .. } | AtomDef::Error { .. } => Ok(SemType::Atom(a)),
        AtomDef::Future { .. } => Ok(SemType::Atom(a)),
    }
}

/// The type of what is made with the atom of this number.
pub(crate) fn value_type<T: Types>(alloc: Global, types: &T, a: u32) -> Result<SemType, Memory>
    requires { a < length (T.atoms types.now) }
    ensures { IfOk result (IsValueType (T.atoms types.now) a) }
{
    let defs = types.env().defs();
    type_of(alloc, a, &defs[a as usize])
}
