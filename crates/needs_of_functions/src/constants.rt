//! Constants whose type is said.
#![tactic(auto, using(check_work::proofs::Noting::meeting, check_kinds::proofs::Over::overs))]

ghost use Rattle.std.specs.Prelude.{◌≡◌, length};
ghost use Rattle.checks.specs.Checks.{Comes, ◌▷◌};
ghost use Rattle.check_kinds.specs.Over.{ComesOver};
ghost use Rattle.descriptors.specs.Steps.{AreNames};
ghost use Rattle.needs.specs.Needs.{Runs};
ghost use Rattle.type_model.specs.Calls.{KeepsTypes};
ghost use Rattle.typed_tree.specs.Listed.{one};
ghost use Rattle.expr_needs.specs.Needs.{IsConstant};
ghost use Rattle.check_words.specs.Meets.{meets};
ghost use Rattle.check_words.specs.Stands.{SharedBelow, Stands};
ghost use Rattle.check_words.specs.Units.{constant_fits};
ghost use Rattle.check_work.specs.Views.{Holds, going, state_of};
ghost use Rattle.needs_of_functions.specs.Constants.{described_as, value_fits};

use crate::described::described;
use bal_base::{Fault, Stop};
use bal_tree::{ConstDef, ConstValue, TypeTree};
use check_kinds::single_type;
use check_words::{place_of_value, value_constant};
use check_work::{Checker, Work, has_stopped, note};
use checks::require_below;
use descriptors::{Names, Scope};
use std::alloc::Global;
use type_model::Types;
use typed_tree::SharedTy;

/// The value is below the type.
fn require_fits<T: Types>(
    alloc: Global,
    types: &mut T,
    value: &ConstValue,
    t: &SharedTy,
) -> Result<(), Stop<Fault>>
    requires { SharedBelow (length (T.atoms types.old)) t.now }
    ensures atoms { T.atoms types.new ≡ T.atoms types.old }
    ensures comes { ComesOver (value_fits T.passes value.now t.now) (T.atoms types.old) result (T.atoms types.new) }
{
    let single = single_type(alloc, &value_constant(value));
    let at = place_of_value(value);
    require_below(alloc, types, &single.sem, &t.sem, Some(at))
}

/// The value is below the type of the descriptor.
fn require_described<T: Types>(
    alloc: Global,
    types: &mut T,
    names: &Names,
    scope: Scope,
    tree: &TypeTree,
    value: &ConstValue,
) -> Result<(), Stop<Fault>>
    requires { AreNames (T.atoms types.old) names.now }
    ensures kept { KeepsTypes (T.atoms types.old) (T.atoms types.new) }
    ensures comes { ComesOver (described_as names.now scope tree.now ▷ value_fits T.passes value.now) (T.atoms types.old) result (T.atoms types.new) }
{
    let t = described(alloc, types, names, scope, tree)?;
    require_fits(alloc, types, value, &t)
}

/// The value of the constant is below its type, where one is said.
fn check_constant<T: Types>(
    alloc: Global,
    types: &mut T,
    names: &Names,
    work: &Work<'_>,
    d: &ConstDef,
) -> Result<(), Stop<Fault>>
    requires { AreNames (T.atoms types.old) names.now }
    ensures kept { KeepsTypes (T.atoms types.old) (T.atoms types.new) }
    ensures comes { Comes (constant_fits T.passes names.now d.now.ty d.now) (state_of (T.atoms types.old) work.now) result (state_of (T.atoms types.new) work.now) }
{
    match &d.ty {
        Some(tree) => require_described(alloc, types, names, work.site.scope, tree, &d.value),
        None => Ok(()),
    }
}

/// The value of a constant is below its type, where one is said ("Module constant declaration").
///
/// - The refusals of `describe` for its descriptor, which it costs too.
/// - `NotSubtype` at the value: it isn't of the type; `TypeLimit` there: the question is too large.
pub fn is_constant<T: Types>(checker: &mut Checker<'_, T>, d: &ConstDef)
    requires { Holds (T.atoms checker.old.types) checker.old.names.now checker.old.work }
    ensures holds { Holds (T.atoms checker.new.types) checker.new.names.now checker.new.work }
    ensures names { checker.new.names.now ≡ checker.old.names.now }
    ensures met { Runs (meets T.passes checker.old.names.now) (one (IsConstant d.now)) (going (T.atoms checker.old.types) checker.old.work) (going (T.atoms checker.new.types) checker.new.work) }
{
    if has_stopped(&checker.work) {
        return;
    }
    let answer = check_constant(
        checker.alloc,
        &mut checker.types,
        checker.names,
        &checker.work,
        d,
    );
    note(&checker.types, &mut checker.work, answer);
}
