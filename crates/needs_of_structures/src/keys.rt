//! Keys of mapping constructors, and names of details of errors.
#![tactic(auto, using(check_work::proofs::Noting::meeting))]

ghost use Rattle.std.specs.Prelude.{◌≡◌, IfOk, List, OnOk, Ok as Given, map};
ghost use Rattle.std.specs.List.{list_any};
ghost use Rattle.bal_base.specs.declared.fault.FaultCode.TheVariants.{Duplicate};
ghost use Rattle.checks.specs.Checks.{Comes};
ghost use Rattle.needs.specs.Needs.{Runs};
ghost use Rattle.type_model.specs.declared.atoms.AtomDef.{AtomDef as Atom};
ghost use Rattle.typed_tree.specs.Listed.{one};
ghost use Rattle.expr_needs.specs.Needs.{BeginsKeys, ComputesKey, GivesKey, TakesKey};
ghost use Rattle.check_words.specs.Constructors.{at_work, begins_keys as begins_keys_of, computes_key as computes_key_of, gives_new_key as gives_new_key_of, is_key as is_key_of, takes_key as takes_key_of, with_key};
ghost use Rattle.check_words.specs.Meets.{meets};
ghost use Rattle.check_words.specs.Members.{gives_key as gives_key_of};
ghost use Rattle.check_words.specs.Stands.{Stands};
ghost use Rattle.check_words.specs.State.{ConstructorAtWork, IsLast, State};
ghost use Rattle.check_words.specs.Words.{fails as fails_of};
ghost use Rattle.check_work.specs.Views.{Holds, constructor_of, going, state_of};
ghost use Rattle.needs_of_structures.specs.Changed.{IsChanged};

use crate::parts::give_implied;
use bal_base::{Fault, FaultCode, Kept, Memory, Place, Stop, Text};
use check_work::{Checker, Constructor, Work, has_stopped, last, last_taken, note, note_made};
use descriptors::lift;
use operations::Constant;
use std::alloc::Global;
use type_model::Types;

/// A constructor that has neither keys nor members.
pub fn new_constructor(alloc: Global, choice: Option<u32>, immutable: bool) -> Constructor
    ensures { constructor_of result ≡ at_work choice immutable }
{
    Constructor {
        choice,
        immutable,
        keys: Vec::new(alloc),
        types: Vec::new(alloc),
    }
}

/// A constructor without a choice is open.
fn begin_keys(alloc: Global, work: &mut Work<'_>) -> Result<(), Memory>
    ensures stands { (env : List Atom) → Stands (state_of env work.old) → OnOk result (Stands (state_of env work.new)) }
    ensures comes { (env : List Atom) → OnOk result (Comes begins_keys_of (state_of env work.old) (Given tt) (state_of env work.new)) }
{
    work.constructors.push(new_constructor(alloc, None, false))?;
    Ok(())
}

/// The details of an error begin.
pub fn begins_keys<T: Types>(checker: &mut Checker<'_, T>)
    requires { Holds (T.atoms checker.old.types) checker.old.names.now checker.old.work }
    ensures holds { Holds (T.atoms checker.new.types) checker.new.names.now checker.new.work }
    ensures names { checker.new.names.now ≡ checker.old.names.now }
    ensures met { Runs (meets T.passes checker.old.names.now) (one BeginsKeys) (going (T.atoms checker.old.types) checker.old.work) (going (T.atoms checker.new.types) checker.new.work) }
{
    if has_stopped(&checker.work) {
        return;
    }
    let made = begin_keys(checker.alloc, &mut checker.work);
    note_made(&checker.types, &mut checker.work, made);
}

// ---- keys that are taken

/// A fault at the place, which shows nothing.
pub(crate) fn refused(code: FaultCode, at: Place) -> Result<(), Stop<Fault>>
    ensures { (s : State) → Comes (fails_of code at) s result s }
{
    Err(Stop::Fault(Fault {
        code,
        at: Some(at),
        kept: Kept::Nothing,
    }))
}

fn is_key(taken: &Option<Text>, key: &Text) -> bool
    ensures { result ≡ is_key_of key.now taken.now }
{
    match taken {
        Some(taken) => *key == *taken,
        None => false,
    }
}

fn has_key(keys: &[Option<Text>], key: &Text) -> bool
    ensures { result ≡ list_any (is_key_of key.now) keys.now }
{
    keys.iter().any(|taken| is_key(taken, key))
}

/// Whether the constructor at hand has the key. Where none is open it is as if memory were wanted.
fn is_taken(constructors: &[Constructor], key: &Text) -> Result<bool, Memory>
    ensures { IfOk result (λ b. (c : ConstructorAtWork) × IsLast (map constructor_of constructors.now) c × (list_any (is_key_of key.now) c.keys ≡ b)) }
{
    match last(constructors) {
        Some(c) => Ok(has_key(c.keys.as_slice(), key)),
        None => Err(Memory),
    }
}

/// A key more of the constructor at hand. Where none is open it is as if memory were wanted.
fn add_key(constructors: &mut Vec<Constructor>, key: Option<Text>) -> Result<(), Memory>
    ensures { OnOk result (IsChanged (with_key key) (map constructor_of constructors.old.items) (map constructor_of constructors.new.items)) }
{
    let mut c = last_taken(constructors)?;
    c.keys.push(key)?;
    constructors.push(c)?;
    Ok(())
}

/// The key is one more of the constructor at hand, which doesn't have it.
fn take_key(work: &mut Work<'_>, key: &Text, at: Place) -> Result<(), Stop<Fault>>
    ensures stands { (env : List Atom) → Stands (state_of env work.old) → OnOk result (Stands (state_of env work.new)) }
    ensures comes { (env : List Atom) → Comes (takes_key_of key.now at) (state_of env work.old) result (state_of env work.new) }
{
    match is_taken(work.constructors.as_slice(), key) {
        Ok(true) => refused(FaultCode::Duplicate, at),
        Ok(false) => lift(add_key(&mut work.constructors, Some(key.share()))),
        Err(Memory) => Err(Stop::Memory),
    }
}

/// A key more, which none before it in its constructor is: else `Duplicate` at the place. It costs a look through the keys before it
/// (Ballerina specification, "Mapping constructor": the field names of a constructor are distinct).
pub fn takes_key<T: Types>(checker: &mut Checker<'_, T>, key: &Text, at: Place)
    requires { Holds (T.atoms checker.old.types) checker.old.names.now checker.old.work }
    ensures holds { Holds (T.atoms checker.new.types) checker.new.names.now checker.new.work }
    ensures names { checker.new.names.now ≡ checker.old.names.now }
    ensures met { Runs (meets T.passes checker.old.names.now) (one (TakesKey key.now at)) (going (T.atoms checker.old.types) checker.old.work) (going (T.atoms checker.new.types) checker.new.work) }
{
    if has_stopped(&checker.work) {
        return;
    }
    let answer = take_key(&mut checker.work, key, at);
    note(&checker.types, &mut checker.work, answer);
}

// ---- keys that are parts

/// A part more, which is the key.
fn give_key(alloc: Global, work: &mut Work<'_>, key: &Text, at: Place) -> Result<(), Memory>
    ensures stands { (env : List Atom) → Stands (state_of env work.old) → OnOk result (Stands (state_of env work.new)) }
    ensures comes { (env : List Atom) → OnOk result (Comes (gives_key_of key.now at) (state_of env work.old) (Given tt) (state_of env work.new)) }
{
    give_implied(alloc, work, Constant::Str(key.share()), at)
}

/// The key is one more of the constructor at hand, which doesn't have it, and a part.
fn give_new_key(
    alloc: Global,
    work: &mut Work<'_>,
    key: &Text,
    at: Place,
) -> Result<(), Stop<Fault>>
    ensures stands { (env : List Atom) → Stands (state_of env work.old) → OnOk result (Stands (state_of env work.new)) }
    ensures comes { (env : List Atom) → Comes (gives_new_key_of key.now at) (state_of env work.old) result (state_of env work.new) }
{
    match take_key(work, key, at) {
        Ok(()) => lift(give_key(alloc, work, key, at)),
        Err(stop) => Err(stop),
    }
}

/// A key more, which none before it in its constructor is, and a part that it is: else `Duplicate` at the place. It costs a look
/// through the keys before it.
pub fn gives_key<T: Types>(checker: &mut Checker<'_, T>, key: &Text, at: Place)
    requires { Holds (T.atoms checker.old.types) checker.old.names.now checker.old.work }
    ensures holds { Holds (T.atoms checker.new.types) checker.new.names.now checker.new.work }
    ensures names { checker.new.names.now ≡ checker.old.names.now }
    ensures met { Runs (meets T.passes checker.old.names.now) (one (GivesKey key.now at)) (going (T.atoms checker.old.types) checker.old.work) (going (T.atoms checker.new.types) checker.new.work) }
{
    if has_stopped(&checker.work) {
        return;
    }
    let answer = give_new_key(checker.alloc, &mut checker.work, key, at);
    note(&checker.types, &mut checker.work, answer);
}

// ---- keys that are computed

/// The key at hand is computed.
fn compute_key(work: &mut Work<'_>) -> Result<(), Memory>
    ensures stands { (env : List Atom) → Stands (state_of env work.old) → OnOk result (Stands (state_of env work.new)) }
    ensures comes { (env : List Atom) → OnOk result (Comes computes_key_of (state_of env work.old) (Given tt) (state_of env work.new)) }
{
    add_key(&mut work.constructors, None)
}

/// A key more, which is computed: nothing is known of it.
pub fn computes_key<T: Types>(checker: &mut Checker<'_, T>)
    requires { Holds (T.atoms checker.old.types) checker.old.names.now checker.old.work }
    ensures holds { Holds (T.atoms checker.new.types) checker.new.names.now checker.new.work }
    ensures names { checker.new.names.now ≡ checker.old.names.now }
    ensures met { Runs (meets T.passes checker.old.names.now) (one ComputesKey) (going (T.atoms checker.old.types) checker.old.work) (going (T.atoms checker.new.types) checker.new.work) }
{
    if has_stopped(&checker.work) {
        return;
    }
    let made = compute_key(&mut checker.work);
    note_made(&checker.types, &mut checker.work, made);
}
