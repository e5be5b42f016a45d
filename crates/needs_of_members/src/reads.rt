//! Members that are read.
#![tactic(auto, using(check_work::proofs::Noting::meeting))]

ghost use Rattle.std.specs.Prelude.{◌≡◌, List, OnOk, Ok as Given, length};
ghost use Rattle.checks.specs.Checks.{Comes};
ghost use Rattle.descriptors.specs.Steps.{AreOwnTypes};
ghost use Rattle.needs.specs.Needs.{Runs};
ghost use Rattle.type_model.specs.declared.atoms.AtomDef.{AtomDef as Atom};
ghost use Rattle.type_model.specs.Calls.{KeepsTypes};
ghost use Rattle.type_model.specs.Defined.{TyBelow};
ghost use Rattle.typed_tree.specs.declared.form.Read.TheVariants.{Field as FieldRead, OptionalField as OptionalRead};
ghost use Rattle.typed_tree.specs.declared.form.StrictForm.TheVariants.{Read as ReadForm};
ghost use Rattle.typed_tree.specs.Listed.{one};
ghost use Rattle.expr_needs.specs.Needs.{ReadsElement, ReadsField, ReadsOptional};
ghost use Rattle.check_words.specs.Meets.{meets};
ghost use Rattle.check_words.specs.Members.{reads_accessed as reads_accessed_of, reads_element as reads_element_of, reads_field as reads_field_of, reads_optional as reads_optional_of};
ghost use Rattle.check_words.specs.Stands.{Stands};
ghost use Rattle.check_words.specs.Words.{makes_strict};
ghost use Rattle.check_work.specs.Views.{Holds, going, state_of};

use crate::named::{field_read, optional_read, read_type};
use crate::sides::{last_sides, shapes_of};
use bal_base::{Fault, Memory, Place, Stop};
use bal_tree::Word;
use check_members::read_of;
use check_words::Access;
use check_work::{Checker, Work, gather, has_stopped, last, last_taken, note};
use descriptors::{OwnTypes, lift};
use std::alloc::Global;
use type_model::Types;
use typed_tree::{Read, SharedTy, StrictForm};

/// So many of the last parts become the operands of the read, which has this type.
fn make_read(
    work: &mut Work<'_>,
    read: Read,
    count: usize,
    ty: SharedTy,
    at: Place,
) -> Result<(), Memory>
    ensures stands { (env : List Atom) → TyBelow (length env) ty.value → Stands (state_of env work.old) → OnOk result (Stands (state_of env work.new)) }
    ensures comes { (env : List Atom) → OnOk result (Comes (makes_strict count (ReadForm read) (λ atoms t. t ≡ ty.value) at) (state_of env work.old) (Given tt) (state_of env work.new)) }
{
    gather(&mut work.found, StrictForm::Read(read), count, ty, at)?;
    work.ways = None;
    Ok(())
}

/// The member that the last two parts name is read so.
fn read_by<T: Types>(
    alloc: Global,
    types: &mut T,
    own: &OwnTypes,
    work: &mut Work<'_>,
    access: Access,
    at: Place,
) -> Result<(), Stop<Fault>>
    requires own { AreOwnTypes (T.atoms types.old) own.now }
    requires stands { Stands (state_of (T.atoms types.old) work.old) }
    ensures atoms { T.atoms types.new ≡ T.atoms types.old }
    ensures stands { OnOk result (Stands (state_of (T.atoms types.old) work.new)) }
    ensures comes { Comes (reads_element_of T.passes access at) (state_of (T.atoms types.old) work.old) result (state_of (T.atoms types.new) work.new) }
{
    match last_sides(work.found.as_slice()) {
        Some(sides) => match read_type(alloc, types, own, access, sides, at) {
            Ok(ty) => lift(make_read(work, read_of(access), 2, ty, at)),
            Err(stop) => Err(stop),
        },
        None => Err(Stop::Memory),
    }
}

/// The member at hand is read.
fn read_element<T: Types>(
    alloc: Global,
    types: &mut T,
    own: &OwnTypes,
    work: &mut Work<'_>,
    at: Place,
) -> Result<(), Stop<Fault>>
    requires own { AreOwnTypes (T.atoms types.old) own.now }
    requires stands { Stands (state_of (T.atoms types.old) work.old) }
    ensures atoms { T.atoms types.new ≡ T.atoms types.old }
    ensures stands { OnOk result (Stands (state_of (T.atoms types.old) work.new)) }
    ensures comes { Comes (reads_accessed_of T.passes at) (state_of (T.atoms types.old) work.old) result (state_of (T.atoms types.new) work.new) }
{
    match last_taken(&mut work.accesses) {
        Ok(access) => read_by(alloc, types, own, work, access, at),
        Err(Memory) => Err(Stop::Memory),
    }
}

/// The last two parts are a read, by an index or a key ("Member access expression"). Three questions of the decider at most.
///
/// - `NoField` at the place: a list of this type has no item that the index names.
/// - `TypeLimit` at the place: a question is too large.
pub fn reads_element<T: Types>(checker: &mut Checker<'_, T>, at: Place)
    requires { Holds (T.atoms checker.old.types) checker.old.names.now checker.old.work }
    ensures holds { Holds (T.atoms checker.new.types) checker.new.names.now checker.new.work }
    ensures names { checker.new.names.now ≡ checker.old.names.now }
    ensures met { Runs (meets T.passes checker.old.names.now) (one (ReadsElement at)) (going (T.atoms checker.old.types) checker.old.work) (going (T.atoms checker.new.types) checker.new.work) }
{
    if has_stopped(&checker.work) {
        return;
    }
    let answer = read_element(
        checker.alloc,
        &mut checker.types,
        &checker.names.own,
        &mut checker.work,
        at,
    );
    note(&checker.types, &mut checker.work, answer);
}

/// The read of the field.
pub(crate) fn field_form(field: &Word) -> Read
    ensures { result ≡ FieldRead field.now.name }
{
    Read::Field(field.name.as_text().share())
}

/// The field of the last part is read, which each of its values has.
fn read_field<T: Types>(
    alloc: Global,
    types: &mut T,
    work: &mut Work<'_>,
    field: &Word,
    at: Place,
) -> Result<(), Stop<Fault>>
    requires { Stands (state_of (T.atoms types.old) work.old) }
    ensures kept { KeepsTypes (T.atoms types.old) (T.atoms types.new) }
    ensures stands { OnOk result (Stands (state_of (T.atoms types.new) work.new)) }
    ensures comes { Comes (reads_field_of T.passes field.now at) (state_of (T.atoms types.old) work.old) result (state_of (T.atoms types.new) work.new) }
{
    match last(work.found.as_slice()) {
        Some(e) => match field_read(alloc, types, field.name.as_text(), shapes_of(e), at) {
            Ok(ty) => lift(make_read(work, field_form(field), 1, ty, at)),
            Err(stop) => Err(stop),
        },
        None => Err(Stop::Memory),
    }
}

/// The field of the last part is read ("Field access expression"). It adds an atom, and asks two questions.
///
/// - `NoField` at the place: a value of this type may lack the field.
/// - `TypeLimit` at the place: a question is too large. `AtomLimit` there: there would be too many atoms.
pub fn reads_field<T: Types>(checker: &mut Checker<'_, T>, field: &Word, at: Place)
    requires { Holds (T.atoms checker.old.types) checker.old.names.now checker.old.work }
    ensures holds { Holds (T.atoms checker.new.types) checker.new.names.now checker.new.work }
    ensures names { checker.new.names.now ≡ checker.old.names.now }
    ensures met { Runs (meets T.passes checker.old.names.now) (one (ReadsField field.now at)) (going (T.atoms checker.old.types) checker.old.work) (going (T.atoms checker.new.types) checker.new.work) }
{
    if has_stopped(&checker.work) {
        return;
    }
    let answer = read_field(
        checker.alloc,
        &mut checker.types,
        &mut checker.work,
        field,
        at,
    );
    note(&checker.types, &mut checker.work, answer);
}

/// The read of the field, if it is there.
fn optional_form(field: &Word) -> Read
    ensures { result ≡ OptionalRead field.now.name }
{
    Read::OptionalField(field.name.as_text().share())
}

/// The field of the last part is read, which its values may have.
fn read_optional<T: Types>(
    alloc: Global,
    types: &mut T,
    work: &mut Work<'_>,
    field: &Word,
    at: Place,
) -> Result<(), Stop<Fault>>
    requires { Stands (state_of (T.atoms types.old) work.old) }
    ensures atoms { T.atoms types.new ≡ T.atoms types.old }
    ensures stands { OnOk result (Stands (state_of (T.atoms types.old) work.new)) }
    ensures comes { Comes (reads_optional_of T.passes field.now at) (state_of (T.atoms types.old) work.old) result (state_of (T.atoms types.new) work.new) }
{
    match last(work.found.as_slice()) {
        Some(e) => match optional_read(alloc, types, field.name.as_text(), shapes_of(e), at) {
            Ok(ty) => lift(make_read(work, optional_form(field), 1, ty, at)),
            Err(stop) => Err(stop),
        },
        None => Err(Stop::Memory),
    }
}

/// The field of the last part is read, and nil where it isn't there ("Optional field access expression"). Two questions of the decider.
///
/// - `NoField` at the place: no value of this type has the field.
/// - `TypeLimit` at the place: a question is too large.
pub fn reads_optional<T: Types>(checker: &mut Checker<'_, T>, field: &Word, at: Place)
    requires { Holds (T.atoms checker.old.types) checker.old.names.now checker.old.work }
    ensures holds { Holds (T.atoms checker.new.types) checker.new.names.now checker.new.work }
    ensures names { checker.new.names.now ≡ checker.old.names.now }
    ensures met { Runs (meets T.passes checker.old.names.now) (one (ReadsOptional field.now at)) (going (T.atoms checker.old.types) checker.old.work) (going (T.atoms checker.new.types) checker.new.work) }
{
    if has_stopped(&checker.work) {
        return;
    }
    let answer = read_optional(
        checker.alloc,
        &mut checker.types,
        &mut checker.work,
        field,
        at,
    );
    note(&checker.types, &mut checker.work, answer);
}
