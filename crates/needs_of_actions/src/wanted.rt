//! What is known of names in waits, which is what is wanted of them.
#![tactic(auto, using(check_work::proofs::Taking::taking))]

ghost use Rattle.std.specs.Prelude.{◌≡◌, ◌<◌, ℕ, All, IfOk, List, OnOk, length, map};
ghost use Rattle.std.specs.List.{AllZip};
ghost use Rattle.flow_narrowing.specs.Flows.{IfShared};
ghost use Rattle.type_model.specs.declared.atoms.AtomDef.{AtomDef as AtomOf};
ghost use Rattle.type_model.specs.Calls.{KeepsTypes};
ghost use Rattle.type_model.specs.Defined.{DefBelow, TyBelow};
ghost use Rattle.type_model.specs.Places.{HasDistinctFields};
ghost use Rattle.check_words.specs.Seen.{worker_named as worker_named_of};
ghost use Rattle.check_words.specs.Stands.{SharedBelow};
ghost use Rattle.check_words.specs.State.{AreLast, all_but};
ghost use Rattle.needs_of_actions.specs.Awaited.{AddsAll, IsCopyIf, IsOfSeveral, IsOfSome, IsRecordOf, IsSingle, futures_in};

use crate::peers::worker;
use bal_base::{Fault, Memory, Name, Place, Stop, Text};
use bal_tree::{QualifiedName, WaitMember};
use check_work::shared;
use descriptors::copy;
use made_atoms::{add_one, any_of, record_def};
use std::alloc::Global;
use std::rc::Rc;
use type_model::{AtomDef, Ty, Types};
use typed_tree::SharedTy;

/// The last ones of what is wanted, in order, are taken. Where there are fewer it is as if memory were wanted.
pub(crate) fn take_last(
    wants: &mut Vec<Option<SharedTy>>,
    count: usize,
) -> Result<Vec<Option<SharedTy>>, Memory>
    ensures wants { IfOk result (λ ws. AreLast wants.old.items count ws.items) }
    ensures kept { OnOk result (wants.new.items ≡ all_but count wants.old.items) }
{
    if wants.len() < count {
        return Err(Memory);
    }
    let kept = wants.len() - count;
    Ok(wants.split_off(kept)?)
}

/// The worker that the name stands for.
pub(crate) fn worker_named(workers: &[Name], q: &QualifiedName) -> Result<Option<u32>, Memory>
    ensures { IfOk result (λ n. n ≡ worker_named_of workers.now q.now) }
{
    match &q.prefix {
        None => worker(workers, &q.word.name),
        Some(_) => Ok(None),
    }
}

/// What names stand for: workers, and where none does, futures.
pub(crate) fn awaited(
    alloc: Global,
    workers: &[Name],
    names: &[QualifiedName],
) -> Result<Vec<Option<u32>>, Memory>
    ensures { IfOk result (λ ns. ns.items ≡ map (worker_named_of workers.now) names.now) }
{
    let mut numbers = Vec::new(alloc);
    for q in names {
        numbers.push(worker_named(workers, q)?)?;
    }
    Ok(numbers)
}

/// The same of the members of a wait on all.
pub(crate) fn awaited_members(
    alloc: Global,
    workers: &[Name],
    members: &[WaitMember],
) -> Result<Vec<Option<u32>>, Memory>
    ensures { IfOk result (λ ns. ns.items ≡ map (λ m. worker_named_of workers.now m.name) members.now) }
{
    let mut numbers = Vec::new(alloc);
    for m in members {
        numbers.push(worker_named(workers, &m.name)?)?;
    }
    Ok(numbers)
}

/// How many futures are among them.
pub(crate) fn futures(numbers: &[Option<u32>]) -> usize
    ensures { result ≡ futures_in numbers.now }
{
    numbers.iter().filter(|n| n.is_none()).count()
}

/// A copy of the type, which is there.
fn copy_of(alloc: Global, want: &Option<SharedTy>) -> Result<Ty, Memory>
    ensures { IfOk result (IsCopyIf want.now) }
{
    match want {
        Some(t) => copy(alloc, t),
        None => Err(Memory),
    }
}

/// Copies of the types. Where one isn't there it is as if memory were wanted.
pub(crate) fn copies(alloc: Global, wants: &[Option<SharedTy>]) -> Result<Vec<Ty>, Memory>
    ensures { IfOk result (λ us. AllZip IsCopyIf wants.now us.items) }
{
    let mut copies = Vec::new(alloc);
    for want in wants {
        copies.push(copy_of(alloc, want)?)?;
    }
    Ok(copies)
}

/// The shapes of any of the types, to be shared.
fn several<T: Types>(
    alloc: Global,
    types: &mut T,
    wants: &[Option<SharedTy>],
) -> Result<SharedTy, Memory>
    requires { All (IfShared (TyBelow (length (T.atoms types.old)))) wants.now }
    ensures atoms { T.atoms types.new ≡ T.atoms types.old }
    ensures below { IfOk result (SharedBelow (length (T.atoms types.old))) }
    ensures is { IfOk result (IsOfSeveral wants.now (T.atoms types.old)) }
{
    let all = copies(alloc, wants)?;
    let ty = any_of(alloc, types, all.as_slice())?;
    Ok(Rc::new(alloc, ty)?)
}

/// The type by another handle, where it is there.
fn single(want: &Option<SharedTy>) -> Result<SharedTy, Memory>
    ensures { IfOk result (IsSingle want.now) }
{
    match want {
        Some(t) => shared(t),
        None => Err(Memory),
    }
}

/// What the only name gives. Where there isn't just one it is as if memory were wanted.
fn of_one(wants: &[Option<SharedTy>]) -> Result<SharedTy, Memory>
    ensures below { (n : ℕ) → All (IfShared (TyBelow n)) wants.now → IfOk result (SharedBelow n) }
    ensures is { (env : List AtomOf) → IfOk result (IsOfSome wants.now env) }
{
    match wants {
        [want] => single(want),
        _ => Err(Memory),
    }
}

/// What one of the names gives: its type if there is one alone, and else the shapes of any of the types. These are written anew
/// with each name.
pub(crate) fn of_any<T: Types>(
    alloc: Global,
    types: &mut T,
    wants: &[Option<SharedTy>],
) -> Result<SharedTy, Memory>
    requires { All (IfShared (TyBelow (length (T.atoms types.old)))) wants.now }
    ensures atoms { T.atoms types.new ≡ T.atoms types.old }
    ensures below { IfOk result (SharedBelow (length (T.atoms types.old))) }
    ensures is { IfOk result (IsOfSome wants.now (T.atoms types.old)) }
{
    if wants.len() == 1 {
        return of_one(wants);
    }
    several(alloc, types, wants)
}

/// A closed record of copies of the types.
fn record_of(
    alloc: Global,
    keys: Vec<Option<Text>>,
    known: &[Option<SharedTy>],
) -> Result<AtomDef, Memory>
    ensures is { IfOk result (IsRecordOf keys.items known.now) }
    ensures distinct { IfOk result HasDistinctFields }
    ensures below { (n : ℕ) → All (IfShared (TyBelow n)) known.now → IfOk result (DefBelow n) }
{
    let types = copies(alloc, known)?;
    record_def(alloc, keys, types)
}

/// The atom of what all of the names give. `AtomLimit` at the place where there would be too many atoms.
pub(crate) fn record_atom<T: Types>(
    alloc: Global,
    types: &mut T,
    keys: Vec<Option<Text>>,
    known: &[Option<SharedTy>],
    at: Place,
) -> Result<u32, Stop<Fault>>
    requires { All (IfShared (TyBelow (length (T.atoms types.old)))) known.now }
    ensures kept { KeepsTypes (T.atoms types.old) (T.atoms types.new) }
    ensures there { IfOk result (λ atom. atom < length (T.atoms types.new)) }
    ensures comes { AddsAll keys.items known.now at (T.atoms types.old) result (T.atoms types.new) }
{
    match record_of(alloc, keys, known) {
        Ok(def) => add_one(alloc, types, def, at),
        Err(Memory) => Err(Stop::Memory),
    }
}
