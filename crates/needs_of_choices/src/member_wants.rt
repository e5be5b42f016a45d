//! What is expected of members of mappings.
#![tactic(auto, using(check_work::proofs::Noting::meeting))]

ghost use Rattle.std.specs.Prelude.{◌≡◌, IfOk, Option, OnOk, Ok as Given, length, map, unwrap_or};
ghost use Rattle.std.specs.Option.{option_copied};
ghost use Rattle.bal_base.specs.declared.text.Text.{Text as TextOf};
ghost use Rattle.checks.specs.Checks.{Comes};
ghost use Rattle.needs.specs.Needs.{Runs};
ghost use Rattle.descriptors.specs.Described.{plain as plain_of};
ghost use Rattle.type_model.specs.declared.basic.BasicSet.TheVariants.{Never};
ghost use Rattle.type_model.specs.declared.basic.SemType.{Basic as IsBasic};
ghost use Rattle.typed_tree.specs.Listed.{one};
ghost use Rattle.expr_needs.specs.Needs.{ExpectsMember};
ghost use Rattle.check_words.specs.Constructors.{IsMemberWant, IsWantCopy, expects_member as expects_member_of};
ghost use Rattle.check_words.specs.Meets.{meets};
ghost use Rattle.check_words.specs.Stands.{Stands};
ghost use Rattle.check_words.specs.State.{ConstructorAtWork, IsLast};
ghost use Rattle.check_work.specs.Views.{Holds, constructor_of, going, state_of};
ghost use Rattle.needs_of_choices.specs.ByKeys.{IsKeyCopy, IsKeyCopyOf};

use bal_base::{Memory, Text};
use check_constructors::member_type;
use check_work::{Checker, Constructor, Work, has_stopped, last, note_made};
use descriptors::plain;
use needs_of_structures::want_copy;
use std::alloc::Global;
use type_model::{AtomDef, BasicSet, SemType, Ty, Types};
use typed_tree::SharedTy;

/// A copy of the type, or of `never` where there is none.
fn copy_or_never(alloc: Global, t: Option<&Ty>) -> Result<Option<SharedTy>, Memory>
    ensures { IfOk result (IsWantCopy (unwrap_or (option_copied t.entry) (plain_of (IsBasic Never)))) }
{
    match t {
        Some(t) => want_copy(alloc, t),
        None => want_copy(alloc, &plain(alloc, SemType::Basic(BasicSet::Never))),
    }
}

/// The same of the type at the key, where these are mappings.
fn key_copy_in(alloc: Global, def: &AtomDef, key: Option<&Text>) -> Result<Option<SharedTy>, Memory>
    ensures { IfOk result (IsKeyCopy def.now (option_copied key.entry)) }
{
    match def {
        AtomDef::Mapping { fields, rest } => {
            copy_or_never(alloc, member_type(fields.as_slice(), rest, key))
        }
        AtomDef::List { .. } | AtomDef::Arrow { .. } => Err(Memory),
        AtomDef::Error { .. } | AtomDef::Future { .. } => Err(Memory),
    }
}

/// The same of the mappings of the atom.
fn key_copy(
    alloc: Global,
    defs: &[AtomDef],
    atom: u32,
    key: &Option<Text>,
) -> Result<Option<SharedTy>, Memory>
    ensures { IfOk result (IsKeyCopyOf defs.now atom key.now) }
{
    match defs.get(atom as usize) {
        Some(def) => key_copy_in(alloc, def, key.as_ref()),
        None => Err(Memory),
    }
}

/// The same at the last key.
fn last_key_copy(
    alloc: Global,
    defs: &[AtomDef],
    atom: u32,
    keys: &[Option<Text>],
) -> Result<Option<SharedTy>, Memory>
    ensures { IfOk result (λ w. (key : Option TextOf) × IsLast keys.now key × IsKeyCopyOf defs.now atom key w) }
{
    match last(keys) {
        Some(key) => key_copy(alloc, defs, atom, key),
        None => Err(Memory),
    }
}

/// What is expected of the member with the last key: nothing where nothing was chosen.
fn member_want(alloc: Global, defs: &[AtomDef], c: &Constructor) -> Result<Option<SharedTy>, Memory>
    ensures { IfOk result (IsMemberWant defs.now (constructor_of c.now)) }
{
    match c.choice {
        Some(atom) => last_key_copy(alloc, defs, atom, c.keys.as_slice()),
        None => Ok(None),
    }
}

/// The same of the constructor at hand. Where none is open it is as if memory were wanted.
fn next_member(
    alloc: Global,
    defs: &[AtomDef],
    constructors: &[Constructor],
) -> Result<Option<SharedTy>, Memory>
    ensures { IfOk result (λ w. (c : ConstructorAtWork) × IsLast (map constructor_of constructors.now) c × IsMemberWant defs.now c w) }
{
    match last(constructors) {
        Some(c) => member_want(alloc, defs, c),
        None => Err(Memory),
    }
}

/// What is expected of the member with the last key is wanted.
fn expect_member<T: Types>(alloc: Global, types: &T, work: &mut Work<'_>) -> Result<(), Memory>
    ensures stands { Stands (state_of (T.atoms types.now) work.old) → OnOk result (Stands (state_of (T.atoms types.now) work.new)) }
    ensures comes { OnOk result (Comes expects_member_of (state_of (T.atoms types.now) work.old) (Given tt) (state_of (T.atoms types.now) work.new)) }
{
    let want = next_member(alloc, types.env().defs(), work.constructors.as_slice())?;
    work.wants.push(want)?;
    Ok(())
}

/// A member is expected of the type of its key in the atom that was chosen, and of the rest's where the key is computed; nothing is
/// expected where nothing was chosen. It costs a look through the fields, and by how much is written of the type, which is copied
/// (Ballerina specification, "Mapping constructor").
pub fn expects_member<T: Types>(checker: &mut Checker<'_, T>)
    requires { Holds (T.atoms checker.old.types) checker.old.names.now checker.old.work }
    ensures holds { Holds (T.atoms checker.new.types) checker.new.names.now checker.new.work }
    ensures names { checker.new.names.now ≡ checker.old.names.now }
    ensures met { Runs (meets T.passes checker.old.names.now) (one ExpectsMember) (going (T.atoms checker.old.types) checker.old.work) (going (T.atoms checker.new.types) checker.new.work) }
{
    if has_stopped(&checker.work) {
        return;
    }
    let made = expect_member(checker.alloc, &checker.types, &mut checker.work);
    note_made(&checker.types, &mut checker.work, made);
}
