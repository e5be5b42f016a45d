//! Whether all shapes of an atom are in a type.
ghost use Rattle.std.specs.Prelude.{◌≡◌, ◌↔◌, IfOk, IsTrue, is_none};
ghost use Rattle.bal_base.specs.Stops.{IfFault};
ghost use Rattle.type_model.specs.Calls.{Without};
ghost use Rattle.type_model.specs.Defined.{IsDefined};
ghost use Rattle.type_model.specs.Inclusion.{Sub};
ghost use Rattle.type_diagrams.specs.Reach.{Passes};
ghost use Rattle.plain_tests.specs.Tells.{IsOfMutable, IsOpenAtom};
ghost use Rattle.plain_tests.specs.Own.{TellsAtom, TellsAtomIf, TellsMutable, TellsMutableIf, TellsSub};

use bal_base::{Memory, Shape, Stop};
use std::alloc::Global;
use subtype_decider::{Calls, Questions};
use type_model::{AtomDef, BasicSet, SemType, TypeEnv, TypeLimit};

/// Whether no shape was found.
fn is_absent(found: &Option<Shape>) -> bool
    ensures { result ≡ is_none found.now }
{
    match found {
        Some(_) => false,
        None => true,
    }
}

/// Whether all shapes of the first type are in the second. `TypeLimit` comes only where the questions to which
/// this leads pass the limit.
fn asked(alloc: Global, env: &TypeEnv, s: &SemType, t: &SemType) -> Result<bool, Stop<TypeLimit>>
    requires left { IsDefined env.now s.now }
    requires right { IsDefined env.now t.now }
    ensures below { IfOk result (λ below. IsTrue below ↔ Sub env.now s.now t.now) }
    ensures limit { IfFault result (Passes env.now (Without s.now t.now)) }
{
    let mut questions = Questions::new(alloc);
    let question = questions.without(env, s, t)?;
    let found = questions.find(alloc, &Calls, env, question)?;
    Ok(is_absent(&found))
}

/// The same, where that is told.
fn is_below(alloc: Global, env: &TypeEnv, s: &SemType, t: &SemType) -> Result<Option<bool>, Memory>
    requires { IsDefined env.now s.now }
    ensures { IfOk result (TellsSub env.now s.now t.now) }
{
    if !t.names_below(env.defs().len()) {
        return Ok(None);
    }
    match asked(alloc, env, s, t) {
        Ok(below) => Ok(Some(below)),
        Err(Stop::Memory) => Err(Memory),
        Err(Stop::Fault(_)) => Ok(None),
    }
}

/// The atom, and not `readonly`.
fn open_atom(alloc: Global, a: u32) -> Result<SemType, Memory>
    ensures { IfOk result (IsOpenAtom a) }
{
    let readonly = Box::new(alloc, SemType::Basic(BasicSet::Readonly))?;
    let open = Box::new(alloc, SemType::Not(readonly))?;
    Ok(SemType::And(Box::new(alloc, SemType::Atom(a))?, open))
}

/// The type of what a mutable structure of the atom with this definition stands for.
fn type_of_mutable(alloc: Global, a: u32, def: &AtomDef) -> Result<SemType, Memory>
    ensures { IfOk result (IsOfMutable a def.now) }
{
    match def {
        AtomDef::List { .. } | AtomDef::Mapping { .. } => open_atom(alloc, a),
        AtomDef::Arrow { .. } | AtomDef::Error { .. } => Ok(SemType::Atom(a)),
        AtomDef::Future { .. } => Ok(SemType::Atom(a)),
    }
}

/// Whether all that a mutable structure of the atom stands for is in the type, where that is told.
fn mutable_below(alloc: Global, env: &TypeEnv, a: u32, t: &SemType) -> Result<Option<bool>, Memory>
    ensures { IfOk result (TellsMutable env.now a t.now) }
{
    match env.defs().get(a as usize) {
        None => Ok(Some(true)),
        Some(def) => {
            let s = type_of_mutable(alloc, a, def)?;
            is_below(alloc, env, &s, t)
        }
    }
}

/// The same of one that may lack an atom: then it stands for nothing.
pub(crate) fn mutable_below_if(
    alloc: Global,
    env: &TypeEnv,
    atom: Option<u32>,
    t: &SemType,
) -> Result<Option<bool>, Memory>
    ensures { IfOk result (TellsMutableIf env.now atom t.now) }
{
    match atom {
        None => Ok(Some(true)),
        Some(a) => mutable_below(alloc, env, a, t),
    }
}

/// Whether all shapes of the atom are in the type, where that is told.
fn atom_below(alloc: Global, env: &TypeEnv, a: u32, t: &SemType) -> Result<Option<bool>, Memory>
    ensures { IfOk result (TellsAtom env.now a t.now) }
{
    if a as usize >= env.defs().len() {
        return Ok(Some(true));
    }
    is_below(alloc, env, &SemType::Atom(a), t)
}

/// The same of an atom that may lack.
pub(crate) fn atom_below_if(
    alloc: Global,
    env: &TypeEnv,
    atom: Option<u32>,
    t: &SemType,
) -> Result<Option<bool>, Memory>
    ensures { IfOk result (TellsAtomIf env.now atom t.now) }
{
    match atom {
        None => Ok(Some(true)),
        Some(a) => atom_below(alloc, env, a, t),
    }
}
