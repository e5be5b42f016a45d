//! What function values give.
#![tactic(auto, using(check_work::proofs::Noting::meeting, check_work::proofs::Taking::taking))]

ghost use Rattle.std.specs.Prelude.{◌≡◌, ◌∷◌, ◌<◌, All, IfOk, List, None as Nobody, OnOk, Ok as Given, Some as There, length, true};
ghost use Rattle.checks.specs.Checks.{Comes};
ghost use Rattle.checks.specs.Questions.{applied as applied_of};
ghost use Rattle.type_model.specs.Application.{IsFunctionType, IsListType};
ghost use Rattle.type_model.specs.declared.atoms.AtomDef.{AtomDef as AtomOf};
ghost use Rattle.type_model.specs.declared.atoms.AtomDef.TheVariants.{List as ListAtom};
ghost use Rattle.type_model.specs.declared.basic.SemType.{Atom};
ghost use Rattle.type_model.specs.Calls.{KeepsTypes};
ghost use Rattle.type_model.specs.Defined.{IsDefined, TyBelow};
ghost use Rattle.check_kinds.specs.Over.{ComesOver};
ghost use Rattle.check_words.specs.Calls.{applies_to};
ghost use Rattle.check_words.specs.Stands.{PartBelow};
ghost use Rattle.check_words.specs.State.{AreLast, State};
ghost use Rattle.check_words.specs.Words.{asking};
ghost use Rattle.needs_of_made_calls.specs.Applied.{AreCopied, adds_arguments, applies_last};

use bal_base::{Fault, Memory, Place, Stop};
use checks::{apply, is_below};
use descriptors::copy;
use made_atoms::add_one;
use std::alloc::Global;
use type_model::{AtomDef, BasicSet, SemType, Ty, TyList, Types};
use typed_tree::TypedExpr;

/// The types of the parts, which are copied.
fn types_of(alloc: Global, parts: &[TypedExpr]) -> Result<Vec<Ty>, Memory>
    ensures { IfOk result (λ ts. AreCopied parts.now ts.items) }
{
    let mut found = Vec::new(alloc);
    for part in parts {
        found.push(copy(alloc, part.ty())?)?;
    }
    Ok(found)
}

/// Lists of just these items.
fn list_def(items: Vec<Ty>) -> AtomDef
    ensures { result ≡ ListAtom items.items Nobody }
{
    AtomDef::List {
        fixed: TyList::of(items),
        rest: None,
    }
}

/// The atom of the lists of such arguments is added, which costs by what is written of their types.
fn add_arguments<T: Types>(
    alloc: Global,
    types: &mut T,
    args: &[TypedExpr],
    at: Place,
) -> Result<u32, Stop<Fault>>
    requires { All (PartBelow (length (T.atoms types.old))) args.now }
    ensures kept { KeepsTypes (T.atoms types.old) (T.atoms types.new) }
    ensures there { IfOk result (λ atom. atom < length (T.atoms types.new)) }
    ensures lists { IfOk result (λ atom. IsListType (T.atoms types.new) (Atom atom)) }
    ensures comes { ComesOver (adds_arguments args.now at) (T.atoms types.old) result (T.atoms types.new) }
{
    match types_of(alloc, args) {
        Ok(items) => add_one(alloc, types, list_def(items), at),
        Err(Memory) => Err(Stop::Memory),
    }
}

/// Whether the answer is yes.
fn is_yes(answer: Result<bool, Stop<Fault>>) -> bool
    ensures { result ≡ true → answer ≡ Given true }
{
    match answer {
        Ok(so) => so,
        Err(_) => false,
    }
}

/// All values of the type are functions. It was asked where they began to be called, so this is always so: any other answer is as if memory
/// were wanted.
fn are_functions<T: Types>(
    alloc: Global,
    types: &mut T,
    t: &SemType,
    at: Place,
) -> Result<(), Memory>
    requires { IsDefined (T.atoms types.old) t.now }
    ensures atoms { T.atoms types.new ≡ T.atoms types.old }
    ensures are { OnOk result (IsFunctionType (T.atoms types.old) t.now) }
{
    let functions = SemType::Basic(BasicSet::FunctionAll);
    match is_yes(is_below(alloc, types, t, &functions, Some(at))) {
        true => Ok(()),
        false => Err(Memory),
    }
}

/// What functions of a type give to arguments of the atom.
fn apply_to<T: Types>(
    alloc: Global,
    types: &mut T,
    f: &SemType,
    args: u32,
    at: Place,
) -> Result<SemType, Stop<Fault>>
    requires defined { IsDefined (T.atoms types.old) f.now }
    requires there { args < length (T.atoms types.old) }
    requires lists { IsListType (T.atoms types.old) (Atom args) }
    ensures atoms { T.atoms types.new ≡ T.atoms types.old }
    ensures comes { Comes (applied_of T.passes f.now (Atom args) (There at)) (T.atoms types.old) result (T.atoms types.new) }
{
    match are_functions(alloc, types, f, at) {
        Ok(()) => apply(alloc, types, f, &SemType::Atom(args), Some(at)),
        Err(Memory) => Err(Stop::Memory),
    }
}

/// What the function gives to the arguments.
fn apply_function<T: Types>(
    alloc: Global,
    types: &mut T,
    f: &TypedExpr,
    args: &[TypedExpr],
    at: Place,
) -> Result<SemType, Stop<Fault>>
    requires f { PartBelow (length (T.atoms types.old)) f.now }
    requires args { All (PartBelow (length (T.atoms types.old))) args.now }
    ensures kept { KeepsTypes (T.atoms types.old) (T.atoms types.new) }
    ensures defined { IfOk result (IsDefined (T.atoms types.new)) }
    ensures comes { ComesOver (applies_to T.passes (f.now ∷ args.now) at) (T.atoms types.old) result (T.atoms types.new) }
{
    match add_arguments(alloc, types, args, at) {
        Ok(atom) => apply_to(alloc, types, &f.ty().sem, atom, at),
        Err(stop) => Err(stop),
    }
}

/// What the function that is the first part gives to the others.
fn apply_parts<T: Types>(
    alloc: Global,
    types: &mut T,
    parts: &[TypedExpr],
    at: Place,
) -> Result<SemType, Stop<Fault>>
    requires { All (PartBelow (length (T.atoms types.old))) parts.now }
    ensures kept { KeepsTypes (T.atoms types.old) (T.atoms types.new) }
    ensures defined { IfOk result (IsDefined (T.atoms types.new)) }
    ensures comes { ComesOver (applies_to T.passes parts.now at) (T.atoms types.old) result (T.atoms types.new) }
{
    match parts {
        [f, args @ ..] => apply_function(alloc, types, f, args, at),
        [] => Err(Stop::Memory),
    }
}

/// So many of the last parts.
fn last_parts(found: &[TypedExpr], count: usize) -> Result<&[TypedExpr], Memory>
    ensures { IfOk result (λ parts. AreLast found.now count parts.now) }
{
    if found.len() < count {
        return Err(Memory);
    }
    Ok(&found[found.len() - count..])
}

/// What the first of so many parts, which are the last ones, gives to the others. It adds an atom, and asks two questions.
pub(crate) fn apply_last<T: Types>(
    alloc: Global,
    types: &mut T,
    found: &[TypedExpr],
    count: usize,
    at: Place,
) -> Result<SemType, Stop<Fault>>
    requires { All (PartBelow (length (T.atoms types.old))) found.now }
    ensures kept { KeepsTypes (T.atoms types.old) (T.atoms types.new) }
    ensures defined { IfOk result (IsDefined (T.atoms types.new)) }
    ensures comes { (s : State) → s.atoms ≡ T.atoms types.old → s.found ≡ found.now → Comes (applies_last T.passes count at) s result (record s { atoms = T.atoms types.new }) }
{
    match last_parts(found, count) {
        Ok(parts) => apply_parts(alloc, types, parts, at),
        Err(Memory) => Err(Stop::Memory),
    }
}
