//! What is expected of items.
#![tactic(auto, using(check_work::proofs::Noting::meeting))]

ghost use Rattle.std.specs.Prelude.{◌≡◌, IfOk, IfSome, OnOk, Ok as Given, length, map};
ghost use Rattle.std.specs.Option.{option_copied};
ghost use Rattle.checks.specs.Checks.{Comes};
ghost use Rattle.needs.specs.Needs.{Runs};
ghost use Rattle.type_model.specs.declared.basic.Ty.{Ty as TyOf};
ghost use Rattle.typed_tree.specs.Listed.{one};
ghost use Rattle.expr_needs.specs.Needs.{ExpectsItem};
ghost use Rattle.check_words.specs.Constructors.{IsItemWant, IsWantCopy, expects_item as expects_item_of};
ghost use Rattle.check_words.specs.Meets.{meets};
ghost use Rattle.check_words.specs.Stands.{Stands};
ghost use Rattle.check_words.specs.State.{ConstructorAtWork, IsLast};
ghost use Rattle.check_work.specs.Views.{Holds, constructor_of, going, state_of};
ghost use Rattle.needs_of_structures.specs.Fitting.{IsItemIn, IsItemOf};

use bal_base::Memory;
use check_members::item_type;
use check_work::{Checker, Constructor, Work, has_stopped, last, note_made};
use descriptors::copy;
use std::alloc::Global;
use std::rc::Rc;
use type_model::{AtomDef, Ty, Types};
use typed_tree::SharedTy;

/// A copy of the type, to be wanted. It costs by how much is written of the type.
pub fn want_copy(alloc: Global, t: &Ty) -> Result<Option<SharedTy>, Memory>
    ensures { IfOk result (IsWantCopy t.now) }
{
    let t = copy(alloc, t)?;
    Ok(Some(Rc::new(alloc, t)?))
}

/// The type at the place, where these are lists with one there.
fn item_in(def: &AtomDef, place: usize) -> Option<&Ty>
    ensures { IfSome (option_copied result) (IsItemIn def.now place) }
{
    match def {
        AtomDef::List { fixed, rest } => item_type(fixed.as_slice(), rest, place),
        AtomDef::Mapping { .. } | AtomDef::Arrow { .. } => None,
        AtomDef::Error { .. } | AtomDef::Future { .. } => None,
    }
}

/// The type at a place of the lists of the atom.
fn item_of(defs: &[AtomDef], atom: u32, place: usize) -> Option<&Ty>
    ensures { IfSome (option_copied result) (IsItemOf defs.now atom place) }
{
    match defs.get(atom as usize) {
        Some(def) => item_in(def, place),
        None => None,
    }
}

/// A copy of the type at a place of the lists of the atom. Where there is none it is as if memory were wanted.
fn item_copy(
    alloc: Global,
    defs: &[AtomDef],
    atom: u32,
    place: usize,
) -> Result<Option<SharedTy>, Memory>
    ensures { IfOk result (λ w. (t : TyOf) × IsItemOf defs.now atom place t × IsWantCopy t w) }
{
    match item_of(defs, atom, place) {
        Some(t) => want_copy(alloc, t),
        None => Err(Memory),
    }
}

/// What is expected of the next item: nothing where nothing was chosen.
fn item_want(alloc: Global, defs: &[AtomDef], c: &Constructor) -> Result<Option<SharedTy>, Memory>
    ensures { IfOk result (IsItemWant defs.now (constructor_of c.now)) }
{
    match c.choice {
        Some(atom) => item_copy(alloc, defs, atom, c.types.len()),
        None => Ok(None),
    }
}

/// The same of the constructor at hand. Where none is open it is as if memory were wanted.
fn next_item(
    alloc: Global,
    defs: &[AtomDef],
    constructors: &[Constructor],
) -> Result<Option<SharedTy>, Memory>
    ensures { IfOk result (λ w. (c : ConstructorAtWork) × IsLast (map constructor_of constructors.now) c × IsItemWant defs.now c w) }
{
    match last(constructors) {
        Some(c) => item_want(alloc, defs, c),
        None => Err(Memory),
    }
}

/// What is expected of the next item is wanted.
fn expect_item<T: Types>(alloc: Global, types: &T, work: &mut Work<'_>) -> Result<(), Memory>
    ensures stands { Stands (state_of (T.atoms types.now) work.old) → OnOk result (Stands (state_of (T.atoms types.now) work.new)) }
    ensures comes { OnOk result (Comes expects_item_of (state_of (T.atoms types.now) work.old) (Given tt) (state_of (T.atoms types.now) work.new)) }
{
    let want = next_item(alloc, types.env().defs(), work.constructors.as_slice())?;
    work.wants.push(want)?;
    Ok(())
}

/// An item is expected of the type of its place in the atom that was chosen; nothing is, where nothing was chosen. It costs by how much
/// is written of the type, which is copied (Ballerina specification, "List constructor").
pub fn expects_item<T: Types>(checker: &mut Checker<'_, T>)
    requires { Holds (T.atoms checker.old.types) checker.old.names.now checker.old.work }
    ensures holds { Holds (T.atoms checker.new.types) checker.new.names.now checker.new.work }
    ensures names { checker.new.names.now ≡ checker.old.names.now }
    ensures met { Runs (meets T.passes checker.old.names.now) (one ExpectsItem) (going (T.atoms checker.old.types) checker.old.work) (going (T.atoms checker.new.types) checker.new.work) }
{
    if has_stopped(&checker.work) {
        return;
    }
    let made = expect_item(checker.alloc, &checker.types, &mut checker.work);
    note_made(&checker.types, &mut checker.work, made);
}
