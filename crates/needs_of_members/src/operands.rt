//! Assignments with an operator to members: what is read first, and what the operator works on.
#![tactic(auto, using(check_work::proofs::Noting::meeting))]

ghost use Rattle.std.specs.Prelude.{◌≡◌, IfSome, List, OnOk, Ok as Given, Some as There};
ghost use Rattle.std.specs.Option.{option_copied};
ghost use Rattle.bal_tree.specs.declared.stmt.AssignOp.TheVariants.{Add as Sum};
ghost use Rattle.checks.specs.Checks.{Comes, ◌▷◌};
ghost use Rattle.descriptors.specs.Steps.{AreOwnTypes};
ghost use Rattle.needs.specs.Needs.{Runs};
ghost use Rattle.type_model.specs.declared.atoms.AtomDef.{AtomDef as Atom};
ghost use Rattle.type_model.specs.Calls.{KeepsTypes};
ghost use Rattle.type_model.specs.Defined.{IsDefined};
ghost use Rattle.typed_tree.specs.Listed.{one};
ghost use Rattle.typed_tree.specs.SharedTypes.{sem_of};
ghost use Rattle.expr_needs.specs.Needs.{IsOperand, ReadsStored, ReadsStoredField};
ghost use Rattle.check_kinds.specs.Over.{ComesOver};
ghost use Rattle.check_words.specs.Meets.{meets};
ghost use Rattle.check_words.specs.Members.{reads_stored as reads_stored_of, reads_stored_field as reads_stored_field_of};
ghost use Rattle.check_words.specs.Stands.{Stands};
ghost use Rattle.check_words.specs.State.{IsLast};
ghost use Rattle.check_words.specs.Statements.{is_operand as is_operand_of, operand_kind as operand_kind_of, operand_sort as operand_sort_of};
ghost use Rattle.check_words.specs.Values.{sort_kind as sort_kind_of, sorts};
ghost use Rattle.check_words.specs.Words.{OfKind, wants_some};
ghost use Rattle.check_work.specs.Views.{Holds, going, state_of};
ghost use Rattle.needs_of_members.specs.Fronts.{sort_of as sort_of_of, sum_of};

use crate::named::{field_read, type_before};
use crate::sides::last_sides;
use crate::storing::want;
use bal_base::{Fault, Memory, Place, Stop};
use bal_tree::{AssignOp, Word};
use check_kinds::{is_of_kind, kind_type, require_kind};
use check_work::{Checker, Work, has_stopped, last, note};
use descriptors::{OwnTypes, lift};
use expr_needs::Kind;
use std::alloc::Global;
use std::rc::Rc;
use type_model::{SemType, Types};
use typed_tree::SharedTy;

/// What the last two parts name is read before it is stored.
fn read_stored<T: Types>(
    alloc: Global,
    types: &mut T,
    own: &OwnTypes,
    work: &mut Work<'_>,
    at: Place,
) -> Result<(), Stop<Fault>>
    requires own { AreOwnTypes (T.atoms types.old) own.now }
    requires stands { Stands (state_of (T.atoms types.old) work.old) }
    ensures atoms { T.atoms types.new ≡ T.atoms types.old }
    ensures stands { OnOk result (Stands (state_of (T.atoms types.old) work.new)) }
    ensures comes { Comes (reads_stored_of T.passes at) (state_of (T.atoms types.old) work.old) result (state_of (T.atoms types.new) work.new) }
{
    match last(work.accesses.as_slice()) {
        Some(access) => match last_sides(work.found.as_slice()) {
            Some(sides) => match type_before(alloc, types, own, *access, sides, at) {
                Ok(t) => lift(want(&mut work.wants, t)),
                Err(stop) => Err(stop),
            },
            None => Err(Stop::Memory),
        },
        None => Err(Stop::Memory),
    }
}

/// A member is read before it is assigned with an operator ("Compound assignment statement"): the type of what is read is wanted. Two
/// questions of the decider at most; `TypeLimit` at the place where one is too large.
pub fn reads_stored<T: Types>(checker: &mut Checker<'_, T>, at: Place)
    requires { Holds (T.atoms checker.old.types) checker.old.names.now checker.old.work }
    ensures holds { Holds (T.atoms checker.new.types) checker.new.names.now checker.new.work }
    ensures names { checker.new.names.now ≡ checker.old.names.now }
    ensures met { Runs (meets T.passes checker.old.names.now) (one (ReadsStored at)) (going (T.atoms checker.old.types) checker.old.work) (going (T.atoms checker.new.types) checker.new.work) }
{
    if has_stopped(&checker.work) {
        return;
    }
    let answer = read_stored(
        checker.alloc,
        &mut checker.types,
        &checker.names.own,
        &mut checker.work,
        at,
    );
    note(&checker.types, &mut checker.work, answer);
}

/// The field of the last part but one is read before it is stored.
fn read_field_before<T: Types>(
    alloc: Global,
    types: &mut T,
    work: &mut Work<'_>,
    field: &Word,
    at: Place,
) -> Result<(), Stop<Fault>>
    requires { Stands (state_of (T.atoms types.old) work.old) }
    ensures kept { KeepsTypes (T.atoms types.old) (T.atoms types.new) }
    ensures stands { OnOk result (Stands (state_of (T.atoms types.new) work.new)) }
    ensures comes { Comes (reads_stored_field_of T.passes field.now at) (state_of (T.atoms types.old) work.old) result (state_of (T.atoms types.new) work.new) }
{
    match last_sides(work.found.as_slice()) {
        Some(sides) => {
            match field_read(alloc, types, field.name.as_text(), &sides.container.sem, at) {
                Ok(t) => lift(want(&mut work.wants, t)),
                Err(stop) => Err(stop),
            }
        }
        None => Err(Stop::Memory),
    }
}

/// A field is read before it is assigned with an operator ("Compound assignment statement"): the type of what is read is wanted. It
/// adds an atom, and asks two questions.
///
/// - `NoField` at the place: a value of the container's type may lack the field.
/// - `TypeLimit` at the place: a question is too large. `AtomLimit` there: there would be too many atoms.
pub fn reads_stored_field<T: Types>(checker: &mut Checker<'_, T>, field: &Word, at: Place)
    requires { Holds (T.atoms checker.old.types) checker.old.names.now checker.old.work }
    ensures holds { Holds (T.atoms checker.new.types) checker.new.names.now checker.new.work }
    ensures names { checker.new.names.now ≡ checker.old.names.now }
    ensures met { Runs (meets T.passes checker.old.names.now) (one (ReadsStoredField field.now at)) (going (T.atoms checker.old.types) checker.old.work) (going (T.atoms checker.new.types) checker.new.work) }
{
    if has_stopped(&checker.work) {
        return;
    }
    let answer = read_field_before(
        checker.alloc,
        &mut checker.types,
        &mut checker.work,
        field,
        at,
    );
    note(&checker.types, &mut checker.work, answer);
}

/// The type as a set of shapes.
fn shapes_in(t: &SharedTy) -> &SemType
    ensures { result.now ≡ sem_of t.now }
{
    &t.sem
}

/// The kind that an operator on ints, or one on strings, works on.
fn sort_kind(ints: bool) -> Kind
    ensures { result ≡ sort_kind_of ints }
{
    match ints {
        true => Kind::Integer,
        false => Kind::Text,
    }
}

/// The kind that what was read has to be of.
fn operand_kind<T: Types>(op: AssignOp) -> Kind
    ensures { result ≡ operand_kind_of T.passes op }
{
    match op {
        AssignOp::Add => Kind::IntOrText,
        AssignOp::Set | AssignOp::Subtract | AssignOp::Multiply | AssignOp::Divide => Kind::Integer,
    }
}

/// That `+` works on ints, or else on strings, where what was read has this type.
fn text_unless<T: Types>(
    alloc: Global,
    types: &mut T,
    own: &OwnTypes,
    t: &SharedTy,
    ints: bool,
    at: Place,
) -> Result<bool, Stop<Fault>>
    requires own { AreOwnTypes (T.atoms types.old) own.now }
    requires defined { IsDefined (T.atoms types.old) (sem_of t.now) }
    ensures atoms { T.atoms types.new ≡ T.atoms types.old }
    ensures comes { ComesOver (sum_of T.passes ints t.now at) (T.atoms types.old) result (T.atoms types.new) }
{
    match ints {
        true => Ok(true),
        false => match require_kind(alloc, types, own, shapes_in(t), Kind::Text, at) {
            Ok(()) => Ok(false),
            Err(stop) => Err(stop),
        },
    }
}

/// Whether `+` works on ints, where what was read has this type.
fn sum_sort<T: Types>(
    alloc: Global,
    types: &mut T,
    own: &OwnTypes,
    t: &SharedTy,
    at: Place,
) -> Result<bool, Stop<Fault>>
    requires own { AreOwnTypes (T.atoms types.old) own.now }
    requires defined { IsDefined (T.atoms types.old) (sem_of t.now) }
    ensures atoms { T.atoms types.new ≡ T.atoms types.old }
    ensures comes { ComesOver (operand_sort_of T.passes Sum t.now at) (T.atoms types.old) result (T.atoms types.new) }
{
    match is_of_kind(alloc, types, own, shapes_in(t), Kind::Integer, at) {
        Ok(ints) => text_unless(alloc, types, own, t, ints, at),
        Err(stop) => Err(stop),
    }
}

/// Whether the operator works on ints, where what was read has this type.
#[tactic(auto, using(crate::proofs::Over::giving))]
fn operand_sort<T: Types>(
    alloc: Global,
    types: &mut T,
    own: &OwnTypes,
    t: &SharedTy,
    op: AssignOp,
    at: Place,
) -> Result<bool, Stop<Fault>>
    requires own { AreOwnTypes (T.atoms types.old) own.now }
    requires defined { IsDefined (T.atoms types.old) (sem_of t.now) }
    ensures atoms { T.atoms types.new ≡ T.atoms types.old }
    ensures comes { ComesOver (operand_sort_of T.passes op t.now at) (T.atoms types.old) result (T.atoms types.new) }
{
    match op {
        AssignOp::Add => sum_sort(alloc, types, own, t, at),
        AssignOp::Set | AssignOp::Subtract | AssignOp::Multiply | AssignOp::Divide => Ok(true),
    }
}

/// The same, where what was read has to be of the operator's kind.
fn sort_of<T: Types>(
    alloc: Global,
    types: &mut T,
    own: &OwnTypes,
    t: &SharedTy,
    op: AssignOp,
    at: Place,
) -> Result<bool, Stop<Fault>>
    requires own { AreOwnTypes (T.atoms types.old) own.now }
    requires defined { IsDefined (T.atoms types.old) (sem_of t.now) }
    ensures atoms { T.atoms types.new ≡ T.atoms types.old }
    ensures comes { ComesOver (sort_of_of T.passes op t.now at) (T.atoms types.old) result (T.atoms types.new) }
{
    match require_kind(alloc, types, own, shapes_in(t), operand_kind::<T>(op), at) {
        Ok(()) => operand_sort(alloc, types, own, t, op, at),
        Err(stop) => Err(stop),
    }
}

/// The other operand is wanted to be of the sort.
fn want_operand(
    alloc: Global,
    own: &OwnTypes,
    work: &mut Work<'_>,
    ints: bool,
) -> Result<(), Memory>
    ensures stands { (env : List Atom) → AreOwnTypes env own.now → Stands (state_of env work.old) → OnOk result (Stands (state_of env work.new)) }
    ensures comes { (env : List Atom) → AreOwnTypes env own.now → OnOk result (Comes (sorts ints ▷ λ u. wants_some (OfKind (sort_kind_of ints))) (state_of env work.old) (Given tt) (state_of env work.new)) }
{
    let ty = kind_type(alloc, own, sort_kind(ints))?;
    let t = Rc::new(alloc, ty)?;
    work.sorts.push(ints)?;
    want(&mut work.wants, t)
}

/// The type that is wanted last, if there is one.
fn wanted(wants: &[Option<SharedTy>]) -> Option<&SharedTy>
    ensures { IfSome (option_copied result) (λ t. IsLast wants.now (There t)) }
{
    match last(wants) {
        Some(want) => want.as_ref(),
        None => None,
    }
}

/// What was read is the left operand of an assignment.
fn require_operand<T: Types>(
    alloc: Global,
    types: &mut T,
    own: &OwnTypes,
    work: &mut Work<'_>,
    op: AssignOp,
    at: Place,
) -> Result<(), Stop<Fault>>
    requires own { AreOwnTypes (T.atoms types.old) own.now }
    requires stands { Stands (state_of (T.atoms types.old) work.old) }
    ensures atoms { T.atoms types.new ≡ T.atoms types.old }
    ensures stands { OnOk result (Stands (state_of (T.atoms types.old) work.new)) }
    ensures comes { Comes (is_operand_of T.passes op at) (state_of (T.atoms types.old) work.old) result (state_of (T.atoms types.new) work.new) }
{
    match wanted(work.wants.as_slice()) {
        Some(t) => match sort_of(alloc, types, own, t, op, at) {
            Ok(ints) => lift(want_operand(alloc, own, work, ints)),
            Err(stop) => Err(stop),
        },
        None => Err(Stop::Memory),
    }
}

/// What was read, whose type is wanted last, is the left operand of an assignment with an operator: an int, or for `+` an int or a
/// string. The right operand is wanted to be of the same sort. Three questions of the decider at most.
///
/// - `NotSubtype` at the place, with a shape that shows it: what was read isn't such.
/// - `TypeLimit` at the place: a question is too large.
pub fn is_operand<T: Types>(checker: &mut Checker<'_, T>, op: AssignOp, at: Place)
    requires { Holds (T.atoms checker.old.types) checker.old.names.now checker.old.work }
    ensures holds { Holds (T.atoms checker.new.types) checker.new.names.now checker.new.work }
    ensures names { checker.new.names.now ≡ checker.old.names.now }
    ensures met { Runs (meets T.passes checker.old.names.now) (one (IsOperand op at)) (going (T.atoms checker.old.types) checker.old.work) (going (T.atoms checker.new.types) checker.new.work) }
{
    if has_stopped(&checker.work) {
        return;
    }
    let answer = require_operand(
        checker.alloc,
        &mut checker.types,
        &checker.names.own,
        &mut checker.work,
        op,
        at,
    );
    note(&checker.types, &mut checker.work, answer);
}
