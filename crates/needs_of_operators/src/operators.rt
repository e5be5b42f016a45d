//! Operators: what they work on, and what they give.
#![tactic(auto, using(check_work::proofs::Noting::meeting))]

ghost use Rattle.std.specs.Prelude.{◌≡◌, List, OnOk, Ok as Given};
ghost use Rattle.checks.specs.Checks.{Comes};
ghost use Rattle.descriptors.specs.Steps.{AreOwnTypes};
ghost use Rattle.needs.specs.Needs.{Runs};
ghost use Rattle.type_model.specs.declared.atoms.AtomDef.{AtomDef as Atom};
ghost use Rattle.typed_tree.specs.Listed.{one};
ghost use Rattle.expr_needs.specs.Needs.{Adds, Compares, Forms};
ghost use Rattle.check_words.specs.Meets.{meets};
ghost use Rattle.check_words.specs.Stands.{Stands};
ghost use Rattle.check_words.specs.Values.{adds_up as adds_up_of, compares as compares_of, forms as forms_of, operator_of as operator_in, sort_kind as sort_kind_in};
ghost use Rattle.check_work.specs.Views.{Holds, going, state_of};

use bal_base::{Memory, Place};
use check_kinds::kind_shared;
use check_work::{Checker, Work, gather, has_stopped, last_taken, note_made};
use descriptors::OwnTypes;
use expr_needs::Kind;
use std::alloc::Global;
use type_model::Types;
use typed_tree::{Operator, StrictForm};

/// What an operator makes of its operands.
#[derive(Clone, Copy)]
pub(crate) struct Formed {
    pub(crate) op: Operator,
    pub(crate) count: usize,
    pub(crate) kind: Kind,
    pub(crate) at: Place,
}

/// So many parts become the operands of the operator, which gives the kind.
pub(crate) fn form(
    alloc: Global,
    own: &OwnTypes,
    work: &mut Work<'_>,
    what: Formed,
) -> Result<(), Memory>
    ensures stands { (env : List Atom) → AreOwnTypes env own.now → Stands (state_of env work.old) → OnOk result (Stands (state_of env work.new)) }
    ensures comes { (env : List Atom) → AreOwnTypes env own.now → OnOk result (Comes (forms_of what.op what.count what.kind what.at) (state_of env work.old) (Given tt) (state_of env work.new)) }
{
    let ty = kind_shared(alloc, own, what.kind)?;
    let form = StrictForm::Operator(what.op);
    gather(&mut work.found, form, what.count, ty, what.at)?;
    work.ways = None;
    Ok(())
}

/// So many parts are the operands of the operator, which gives the kind.
pub fn forms<T: Types>(
    checker: &mut Checker<'_, T>,
    op: Operator,
    count: usize,
    kind: Kind,
    at: Place,
)
    requires { Holds (T.atoms checker.old.types) checker.old.names.now checker.old.work }
    ensures holds { Holds (T.atoms checker.new.types) checker.new.names.now checker.new.work }
    ensures names { checker.new.names.now ≡ checker.old.names.now }
    ensures met { Runs (meets T.passes checker.old.names.now) (one (Forms op count kind at)) (going (T.atoms checker.old.types) checker.old.work) (going (T.atoms checker.new.types) checker.new.work) }
{
    if has_stopped(&checker.work) {
        return;
    }
    let what = Formed {
        op,
        count,
        kind,
        at,
    };
    let made = form(checker.alloc, &checker.names.own, &mut checker.work, what);
    note_made(&checker.types, &mut checker.work, made);
}

/// The kind that an operator works on: ints, or strings.
pub(crate) fn sort_kind(ints: bool) -> Kind
    ensures { result ≡ sort_kind_in ints }
{
    match ints {
        true => Kind::Integer,
        false => Kind::Text,
    }
}

/// What `+` is on ints, and on strings.
fn operator_of(ints: bool) -> Operator
    ensures { result ≡ operator_in ints }
{
    match ints {
        true => Operator::Add,
        false => Operator::Concat,
    }
}

/// The last two parts become the operands of `+`.
fn add_up(alloc: Global, own: &OwnTypes, work: &mut Work<'_>, at: Place) -> Result<(), Memory>
    ensures stands { (env : List Atom) → AreOwnTypes env own.now → Stands (state_of env work.old) → OnOk result (Stands (state_of env work.new)) }
    ensures comes { (env : List Atom) → AreOwnTypes env own.now → OnOk result (Comes (adds_up_of at) (state_of env work.old) (Given tt) (state_of env work.new)) }
{
    let ints = last_taken(&mut work.sorts)?;
    let what = Formed {
        op: operator_of(ints),
        count: 2,
        kind: sort_kind(ints),
        at,
    };
    form(alloc, own, work, what)
}

/// The last two parts are the operands of `+`.
pub fn adds<T: Types>(checker: &mut Checker<'_, T>, at: Place)
    requires { Holds (T.atoms checker.old.types) checker.old.names.now checker.old.work }
    ensures holds { Holds (T.atoms checker.new.types) checker.new.names.now checker.new.work }
    ensures names { checker.new.names.now ≡ checker.old.names.now }
    ensures met { Runs (meets T.passes checker.old.names.now) (one (Adds at)) (going (T.atoms checker.old.types) checker.old.work) (going (T.atoms checker.new.types) checker.new.work) }
{
    if has_stopped(&checker.work) {
        return;
    }
    let made = add_up(checker.alloc, &checker.names.own, &mut checker.work, at);
    note_made(&checker.types, &mut checker.work, made);
}

/// The last two parts become the operands of a comparison.
fn compare(
    alloc: Global,
    own: &OwnTypes,
    work: &mut Work<'_>,
    op: Operator,
    at: Place,
) -> Result<(), Memory>
    ensures stands { (env : List Atom) → AreOwnTypes env own.now → Stands (state_of env work.old) → OnOk result (Stands (state_of env work.new)) }
    ensures comes { (env : List Atom) → AreOwnTypes env own.now → OnOk result (Comes (compares_of op at) (state_of env work.old) (Given tt) (state_of env work.new)) }
{
    let _ints = last_taken(&mut work.sorts)?;
    let what = Formed {
        op,
        count: 2,
        kind: Kind::Truth,
        at,
    };
    form(alloc, own, work, what)
}

/// The last two parts are the operands of `<` or its kin.
pub fn compares<T: Types>(checker: &mut Checker<'_, T>, op: Operator, at: Place)
    requires { Holds (T.atoms checker.old.types) checker.old.names.now checker.old.work }
    ensures holds { Holds (T.atoms checker.new.types) checker.new.names.now checker.new.work }
    ensures names { checker.new.names.now ≡ checker.old.names.now }
    ensures met { Runs (meets T.passes checker.old.names.now) (one (Compares op at)) (going (T.atoms checker.old.types) checker.old.work) (going (T.atoms checker.new.types) checker.new.work) }
{
    if has_stopped(&checker.work) {
        return;
    }
    let made = compare(checker.alloc, &checker.names.own, &mut checker.work, op, at);
    note_made(&checker.types, &mut checker.work, made);
}
