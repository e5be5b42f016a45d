//! Lists, mappings and errors, made of their members.
#![tactic(auto, using(check_work::proofs::Noting::meeting))]

ghost use Rattle.std.specs.Prelude.{◌≡◌, ◌<◌, ◌+◌, ◌*◌, IfOk, List, OnOk, Ok as Given, length};
ghost use Rattle.checks.specs.Checks.{Comes};
ghost use Rattle.needs.specs.Needs.{Runs};
ghost use Rattle.descriptors.specs.Described.{plain as plain_of};
ghost use Rattle.type_model.specs.declared.atoms.AtomDef.{AtomDef as Atom};
ghost use Rattle.type_model.specs.declared.basic.SemType.{Atom as OfAtom};
ghost use Rattle.type_model.specs.Calls.{KeepsTypes};
ghost use Rattle.typed_tree.specs.declared.form.StrictForm.TheVariants.{Error as ErrorForm, Mapping as MappingForm};
ghost use Rattle.typed_tree.specs.Listed.{one};
ghost use Rattle.expr_needs.specs.Needs.{LacksCause, MakesError, MakesList, MakesMapping};
ghost use Rattle.check_words.specs.Constructors.{lacks_cause as lacks_cause_of, makes_error as makes_error_of, makes_list as makes_list_of, makes_mapping as makes_mapping_of};
ghost use Rattle.check_words.specs.Meets.{meets};
ghost use Rattle.check_words.specs.Stands.{ConstructorBelow, Stands};
ghost use Rattle.check_work.specs.Views.{Holds, constructor_of, going, state_of};
ghost use Rattle.needs_of_structures.specs.Making.{error_made, list_made, makes_of_atom, makes_so, mapping_made};

use crate::parts::{give_implied, make_strict, twice};
use bal_base::{Fault, Memory, Place, Stop};
use check_kinds::made_type;
use check_work::{Checker, Constructor, Work, has_stopped, last_taken, note, note_made};
use descriptors::{lift, plain};
use made_atoms::{error_atoms, list_atom, mapping_atom};
use operations::Constant;
use std::alloc::Global;
use type_model::{Choice, SemType, Types};
use typed_tree::StrictForm;

// ---- the cause that isn't there

/// A part more, which is nil.
fn lack_cause(alloc: Global, work: &mut Work<'_>, at: Place) -> Result<(), Memory>
    ensures stands { (env : List Atom) → Stands (state_of env work.old) → OnOk result (Stands (state_of env work.new)) }
    ensures comes { (env : List Atom) → OnOk result (Comes (lacks_cause_of at) (state_of env work.old) (Given tt) (state_of env work.new)) }
{
    give_implied(alloc, work, Constant::Nil, at)
}

/// The cause that an error constructor doesn't have is nil (Ballerina specification, "Error constructor").
pub fn lacks_cause<T: Types>(checker: &mut Checker<'_, T>, at: Place)
    requires { Holds (T.atoms checker.old.types) checker.old.names.now checker.old.work }
    ensures holds { Holds (T.atoms checker.new.types) checker.new.names.now checker.new.work }
    ensures names { checker.new.names.now ≡ checker.old.names.now }
    ensures met { Runs (meets T.passes checker.old.names.now) (one (LacksCause at)) (going (T.atoms checker.old.types) checker.old.work) (going (T.atoms checker.new.types) checker.new.work) }
{
    if has_stopped(&checker.work) {
        return;
    }
    let made = lack_cause(checker.alloc, &mut checker.work, at);
    note_made(&checker.types, &mut checker.work, made);
}

// ---- structures

/// So many of the last parts become a structure of the atom.
fn make_structure(
    alloc: Global,
    work: &mut Work<'_>,
    form: StrictForm,
    count: usize,
    of: Choice,
    at: Place,
) -> Result<(), Memory>
    ensures stands { (env : List Atom) → of.atom < length env → Stands (state_of env work.old) → OnOk result (Stands (state_of env work.new)) }
    ensures comes { (env : List Atom) → OnOk result (Comes (makes_of_atom count form of.atom of.immutable at) (state_of env work.old) (Given tt) (state_of env work.new)) }
{
    let ty = made_type(alloc, of.atom, of.immutable)?;
    make_strict(alloc, work, form, count, ty, at)
}

/// What the constructor that was closed makes of so many parts.
fn make_list_with<T: Types>(
    alloc: Global,
    types: &mut T,
    work: &mut Work<'_>,
    c: Constructor,
    count: usize,
    at: Place,
) -> Result<(), Stop<Fault>>
    requires stands { Stands (state_of (T.atoms types.old) work.old) }
    requires below { ConstructorBelow (length (T.atoms types.old)) (constructor_of c) }
    ensures kept { KeepsTypes (T.atoms types.old) (T.atoms types.new) }
    ensures stands { OnOk result (Stands (state_of (T.atoms types.new) work.new)) }
    ensures comes { Comes (list_made (constructor_of c) count at) (state_of (T.atoms types.old) work.old) result (state_of (T.atoms types.new) work.new) }
{
    let immutable = c.immutable;
    match list_atom(alloc, types, c.choice, c.types, at) {
        Ok(atom) => {
            let form = StrictForm::List { atom, immutable };
            lift(make_structure(alloc, work, form, count, Choice { atom, immutable }, at))
        }
        Err(stop) => Err(stop),
    }
}

/// The constructor at hand is closed, and makes a list.
fn make_list<T: Types>(
    alloc: Global,
    types: &mut T,
    work: &mut Work<'_>,
    count: usize,
    at: Place,
) -> Result<(), Stop<Fault>>
    requires { Stands (state_of (T.atoms types.old) work.old) }
    ensures kept { KeepsTypes (T.atoms types.old) (T.atoms types.new) }
    ensures stands { OnOk result (Stands (state_of (T.atoms types.new) work.new)) }
    ensures comes { Comes (makes_list_of count at) (state_of (T.atoms types.old) work.old) result (state_of (T.atoms types.new) work.new) }
{
    match last_taken(&mut work.constructors) {
        Ok(c) => make_list_with(alloc, types, work, c, count, at),
        Err(Memory) => Err(Stop::Memory),
    }
}

/// So many of the last parts are the items of a list of the atom that was chosen, or else of the very types of the items: `AtomLimit` at
/// the place where there would be too many atoms. It costs by the items (Ballerina specification, "List constructor").
pub fn makes_list<T: Types>(checker: &mut Checker<'_, T>, count: usize, at: Place)
    requires { Holds (T.atoms checker.old.types) checker.old.names.now checker.old.work }
    ensures holds { Holds (T.atoms checker.new.types) checker.new.names.now checker.new.work }
    ensures names { checker.new.names.now ≡ checker.old.names.now }
    ensures met { Runs (meets T.passes checker.old.names.now) (one (MakesList count at)) (going (T.atoms checker.old.types) checker.old.work) (going (T.atoms checker.new.types) checker.new.work) }
{
    if has_stopped(&checker.work) {
        return;
    }
    let answer = make_list(
        checker.alloc,
        &mut checker.types,
        &mut checker.work,
        count,
        at,
    );
    note(&checker.types, &mut checker.work, answer);
}

/// So many keys and values become a mapping of the atom.
fn make_members(
    alloc: Global,
    work: &mut Work<'_>,
    count: usize,
    of: Choice,
    at: Place,
) -> Result<(), Memory>
    ensures stands { (env : List Atom) → of.atom < length env → Stands (state_of env work.old) → OnOk result (Stands (state_of env work.new)) }
    ensures comes { (env : List Atom) → OnOk result (Comes (makes_of_atom (2 * count) (MappingForm of.atom of.immutable) of.atom of.immutable at) (state_of env work.old) (Given tt) (state_of env work.new)) }
{
    let parts = twice(count)?;
    let form = StrictForm::Mapping {
        atom: of.atom,
        immutable: of.immutable,
    };
    make_structure(alloc, work, form, parts, of, at)
}

/// What the constructor that was closed makes of so many keys and values.
fn make_mapping_with<T: Types>(
    alloc: Global,
    types: &mut T,
    work: &mut Work<'_>,
    c: Constructor,
    count: usize,
    at: Place,
) -> Result<(), Stop<Fault>>
    requires stands { Stands (state_of (T.atoms types.old) work.old) }
    requires below { ConstructorBelow (length (T.atoms types.old)) (constructor_of c) }
    ensures kept { KeepsTypes (T.atoms types.old) (T.atoms types.new) }
    ensures stands { OnOk result (Stands (state_of (T.atoms types.new) work.new)) }
    ensures comes { Comes (mapping_made (constructor_of c) count at) (state_of (T.atoms types.old) work.old) result (state_of (T.atoms types.new) work.new) }
{
    let immutable = c.immutable;
    match mapping_atom(alloc, types, c.choice, c.keys, c.types, at) {
        Ok(atom) => lift(make_members(alloc, work, count, Choice { atom, immutable }, at)),
        Err(stop) => Err(stop),
    }
}

/// The constructor at hand is closed, and makes a mapping.
fn make_mapping<T: Types>(
    alloc: Global,
    types: &mut T,
    work: &mut Work<'_>,
    count: usize,
    at: Place,
) -> Result<(), Stop<Fault>>
    requires { Stands (state_of (T.atoms types.old) work.old) }
    ensures kept { KeepsTypes (T.atoms types.old) (T.atoms types.new) }
    ensures stands { OnOk result (Stands (state_of (T.atoms types.new) work.new)) }
    ensures comes { Comes (makes_mapping_of count at) (state_of (T.atoms types.old) work.old) result (state_of (T.atoms types.new) work.new) }
{
    match last_taken(&mut work.constructors) {
        Ok(c) => make_mapping_with(alloc, types, work, c, count, at),
        Err(Memory) => Err(Stop::Memory),
    }
}

/// So many keys and values are the members of a mapping of the atom that was chosen. Else it is a closed record of the very types of the
/// members, or where a key is computed, a map of their union: `AtomLimit` at the place where there would be too many atoms. It costs by
/// the members, and by the pairs of their keys (Ballerina specification, "Mapping constructor").
pub fn makes_mapping<T: Types>(checker: &mut Checker<'_, T>, count: usize, at: Place)
    requires { Holds (T.atoms checker.old.types) checker.old.names.now checker.old.work }
    ensures holds { Holds (T.atoms checker.new.types) checker.new.names.now checker.new.work }
    ensures names { checker.new.names.now ≡ checker.old.names.now }
    ensures met { Runs (meets T.passes checker.old.names.now) (one (MakesMapping count at)) (going (T.atoms checker.old.types) checker.old.work) (going (T.atoms checker.new.types) checker.new.work) }
{
    if has_stopped(&checker.work) {
        return;
    }
    let answer = make_mapping(
        checker.alloc,
        &mut checker.types,
        &mut checker.work,
        count,
        at,
    );
    note(&checker.types, &mut checker.work, answer);
}

// ---- errors

/// A message, a cause and so many names and values become an error, whose details are of the first of two atoms.
fn make_error_of(
    alloc: Global,
    work: &mut Work<'_>,
    first: u32,
    count: usize,
    at: Place,
) -> Result<(), Memory>
    ensures stands { (env : List Atom) → first + 1 < length env → Stands (state_of env work.old) → OnOk result (Stands (state_of env work.new)) }
    ensures comes { (env : List Atom) → OnOk result (Comes (makes_so (2 + 2 * count) ErrorForm (plain_of (OfAtom (first + 1))) at) (state_of env work.old) (Given tt) (state_of env work.new)) }
{
    if first == u32::MAX {
        return Err(Memory);
    }
    let parts = twice(count)?;
    let ty = plain(alloc, SemType::Atom(first + 1));
    make_strict(alloc, work, StrictForm::Error, 2 + parts, ty, at)
}

/// What the constructor that was closed makes of a message, a cause and so many names and values.
fn make_error_with<T: Types>(
    alloc: Global,
    types: &mut T,
    work: &mut Work<'_>,
    c: Constructor,
    count: usize,
    at: Place,
) -> Result<(), Stop<Fault>>
    requires stands { Stands (state_of (T.atoms types.old) work.old) }
    requires below { ConstructorBelow (length (T.atoms types.old)) (constructor_of c) }
    ensures kept { KeepsTypes (T.atoms types.old) (T.atoms types.new) }
    ensures stands { OnOk result (Stands (state_of (T.atoms types.new) work.new)) }
    ensures comes { Comes (error_made (constructor_of c) count at) (state_of (T.atoms types.old) work.old) result (state_of (T.atoms types.new) work.new) }
{
    match error_atoms(alloc, types, c.keys, c.types, at) {
        Ok(first) => lift(make_error_of(alloc, work, first, count, at)),
        Err(stop) => Err(stop),
    }
}

/// The details at hand are closed, and make an error.
fn make_error<T: Types>(
    alloc: Global,
    types: &mut T,
    work: &mut Work<'_>,
    count: usize,
    at: Place,
) -> Result<(), Stop<Fault>>
    requires { Stands (state_of (T.atoms types.old) work.old) }
    ensures kept { KeepsTypes (T.atoms types.old) (T.atoms types.new) }
    ensures stands { OnOk result (Stands (state_of (T.atoms types.new) work.new)) }
    ensures comes { Comes (makes_error_of count at) (state_of (T.atoms types.old) work.old) result (state_of (T.atoms types.new) work.new) }
{
    match last_taken(&mut work.constructors) {
        Ok(c) => make_error_with(alloc, types, work, c, count, at),
        Err(Memory) => Err(Stop::Memory),
    }
}

/// A message, a cause, and so many names and values are an error, whose details are a closed record of the very types of the values:
/// `AtomLimit` at the place where there would be too many atoms. It costs by the details, and by the pairs of their names (Ballerina
/// specification, "Error constructor").
pub fn makes_error<T: Types>(checker: &mut Checker<'_, T>, count: usize, at: Place)
    requires { Holds (T.atoms checker.old.types) checker.old.names.now checker.old.work }
    ensures holds { Holds (T.atoms checker.new.types) checker.new.names.now checker.new.work }
    ensures names { checker.new.names.now ≡ checker.old.names.now }
    ensures met { Runs (meets T.passes checker.old.names.now) (one (MakesError count at)) (going (T.atoms checker.old.types) checker.old.work) (going (T.atoms checker.new.types) checker.new.work) }
{
    if has_stopped(&checker.work) {
        return;
    }
    let answer = make_error(
        checker.alloc,
        &mut checker.types,
        &mut checker.work,
        count,
        at,
    );
    note(&checker.types, &mut checker.work, answer);
}
