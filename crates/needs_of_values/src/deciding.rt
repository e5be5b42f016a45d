//! What an operator works on.
#![tactic(auto, using(check_work::proofs::Noting::meeting))]

ghost use Rattle.std.specs.Prelude.{◌≡◌, OnOk};
ghost use Rattle.checks.specs.Checks.{Comes};
ghost use Rattle.descriptors.specs.Steps.{AreOwnTypes};
ghost use Rattle.needs.specs.Needs.{Runs};
ghost use Rattle.type_model.specs.Defined.{IsDefined};
ghost use Rattle.typed_tree.specs.Listed.{one};
ghost use Rattle.expr_needs.specs.Needs.{Decides};
ghost use Rattle.check_kinds.specs.Over.{ComesOver};
ghost use Rattle.check_words.specs.Meets.{meets};
ghost use Rattle.check_words.specs.Stands.{Stands};
ghost use Rattle.check_words.specs.Values.{decided, decides as decides_of};
ghost use Rattle.check_work.specs.Views.{Holds, going, state_of};

use crate::shapes::shapes_of;
use bal_base::{Fault, Place, Stop};
use check_kinds::{is_of_kind, require_kind};
use check_work::{Checker, Work, has_stopped, last, note};
use descriptors::OwnTypes;
use expr_needs::Kind;
use std::alloc::Global;
use type_model::{SemType, Types};

/// Where the operator doesn't work on ints the type is below string.
fn settle<T: Types>(
    alloc: Global,
    types: &mut T,
    own: &OwnTypes,
    s: &SemType,
    ints: bool,
    at: Place,
) -> Result<(), Stop<Fault>>
    requires own { AreOwnTypes (T.atoms types.old) own.now }
    requires defined { IsDefined (T.atoms types.old) s.now }
    ensures atoms { T.atoms types.new ≡ T.atoms types.old }
    ensures comes { ComesOver (decided T.passes ints s.now at) (T.atoms types.old) result (T.atoms types.new) }
{
    match ints {
        true => Ok(()),
        false => require_kind(alloc, types, own, s, Kind::Text, at),
    }
}

/// Whether the operator works on ints is settled.
fn decide<T: Types>(
    alloc: Global,
    types: &mut T,
    own: &OwnTypes,
    work: &mut Work<'_>,
    at: Place,
) -> Result<(), Stop<Fault>>
    requires own { AreOwnTypes (T.atoms types.old) own.now }
    requires stands { Stands (state_of (T.atoms types.old) work.old) }
    ensures atoms { T.atoms types.new ≡ T.atoms types.old }
    ensures stands { OnOk result (Stands (state_of (T.atoms types.old) work.new)) }
    ensures comes { Comes (decides_of T.passes at) (state_of (T.atoms types.old) work.old) result (state_of (T.atoms types.old) work.new) }
{
    let Some(e) = last(work.found.as_slice()) else {
        return Err(Stop::Memory);
    };
    let s = shapes_of(e);
    let ints = is_of_kind(alloc, types, own, s, Kind::Integer, at)?;
    settle(alloc, types, own, s, ints, at)?;
    work.sorts.push(ints)?;
    Ok(())
}

/// The operator works on ints, where the last part is below int, and else on strings, which it has to be below then: else `NotSubtype`
/// at the place, with a shape that shows it. One or two questions of the decider; `TypeLimit` at the place where one is too large.
pub fn decides<T: Types>(checker: &mut Checker<'_, T>, at: Place)
    requires { Holds (T.atoms checker.old.types) checker.old.names.now checker.old.work }
    ensures holds { Holds (T.atoms checker.new.types) checker.new.names.now checker.new.work }
    ensures names { checker.new.names.now ≡ checker.old.names.now }
    ensures met { Runs (meets T.passes checker.old.names.now) (one (Decides at)) (going (T.atoms checker.old.types) checker.old.work) (going (T.atoms checker.new.types) checker.new.work) }
{
    if has_stopped(&checker.work) {
        return;
    }
    let answer = decide(
        checker.alloc,
        &mut checker.types,
        &checker.names.own,
        &mut checker.work,
        at,
    );
    note(&checker.types, &mut checker.work, answer);
}
