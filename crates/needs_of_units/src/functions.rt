//! Functions: where they end.
#![tactic(auto, using(check_work::proofs::Noting::meeting))]

ghost use Rattle.std.specs.Prelude.{◌≡◌, IfOk, List, OnOk, Ok as Given, length};
ghost use Rattle.checks.specs.Checks.{Comes};
ghost use Rattle.descriptors.specs.Steps.{AreOwnTypes};
ghost use Rattle.needs.specs.Needs.{Runs};
ghost use Rattle.type_model.specs.declared.atoms.AtomDef.{AtomDef as Atom};
ghost use Rattle.typed_tree.specs.Listed.{one};
ghost use Rattle.expr_needs.specs.Needs.{EndsFunction, EndsValueFunction};
ghost use Rattle.check_words.specs.Meets.{meets};
ghost use Rattle.check_words.specs.Stands.{Stands, UnitBelow};
ghost use Rattle.check_words.specs.Units.{IsFunctionOf, IsValueBody, ends_function as ends_function_of, ends_value_function as ends_value_function_of, outside_functions};
ghost use Rattle.check_work.specs.Views.{Holds, going, site_of, state_of, unit_of};
ghost use Rattle.needs_of_units.specs.Parts.{adds_block_function};

use crate::endings::end_by;
use crate::units::{close_unit, finished};
use bal_base::{Fault, Memory, Place, Stop};
use bal_tree::FunctionDef;
use check_work::{
    Checker, Site, Unit, Work, close_block, drop_last, has_stopped, note, note_made, take_part,
};
use descriptors::{OwnTypes, Scope, lift};
use std::alloc::Global;
use std::mem;
use type_model::Types;
use typed_tree::{SeenEvents, TypedBody, TypedExpr, TypedFunction, skeleton_of_body};

/// No function is at hand.
fn leave_function(alloc: Global, site: &mut Site)
    ensures { site_of site.new ≡ outside_functions (site_of site.old) }
{
    site.workers = Vec::new(alloc);
    site.results = Vec::new(alloc);
    site.events = SeenEvents::of(Vec::new(alloc));
}

/// The function as typed trees have it. A module with a number that is none of a tree is as if memory were wanted.
fn typed_function(
    alloc: Global,
    scope: Scope,
    d: &FunctionDef,
    unit: Unit,
    body: TypedBody,
) -> Result<TypedFunction, Memory>
    ensures is { IfOk result (IsFunctionOf d.now scope (unit_of unit)) }
    ensures body { IfOk result (λ f. f.body ≡ body) }
{
    if scope.module > u32::MAX as usize {
        return Err(Memory);
    }
    let events = skeleton_of_body(alloc, &d.body)?;
    let arrow = unit.arrow;
    let future = unit.future;
    let (made, _captured) = finished(unit, arrow, future);
    Ok(TypedFunction {
        module: scope.module as u32,
        file: d.name.at.file,
        name: d.name.name.share(),
        public: d.public,
        isolated: d.isolated,
        unit: made,
        body,
        events: SeenEvents::of(events),
        at: d.at,
    })
}

/// `=> e;`
fn value_body(alloc: Global, value: TypedExpr) -> Result<TypedBody, Memory>
    ensures { IfOk result (IsValueBody value) }
{
    let value = Box::new(alloc, value)?;
    Ok(TypedBody::Expr { value })
}

/// The last part is the value of the function.
fn end_value_function(alloc: Global, work: &mut Work<'_>, d: &FunctionDef) -> Result<(), Memory>
    ensures stands { (env : List Atom) → Stands (state_of env work.old) → OnOk result (Stands (state_of env work.new)) }
    ensures comes { (env : List Atom) → OnOk result (Comes (ends_value_function_of d.now) (state_of env work.old) (Given tt) (state_of env work.new)) }
{
    let value = take_part(work)?;
    drop_last(&mut work.wants);
    let unit = close_unit(work)?;
    let body = value_body(alloc, value)?;
    let f = typed_function(alloc, work.site.scope, d, unit, body)?;
    work.done.functions.push(f)?;
    let none = Vec::new(alloc);
    work.done.workers = none;
    leave_function(alloc, &mut work.site);
    Ok(())
}

/// A function ends whose value is the last part, as `=> e;` says ("Function definition"). It costs by its body, whose events are listed.
pub fn ends_value_function<T: Types>(checker: &mut Checker<'_, T>, d: &FunctionDef)
    requires { Holds (T.atoms checker.old.types) checker.old.names.now checker.old.work }
    ensures holds { Holds (T.atoms checker.new.types) checker.new.names.now checker.new.work }
    ensures names { checker.new.names.now ≡ checker.old.names.now }
    ensures met { Runs (meets T.passes checker.old.names.now) (one (EndsValueFunction d.now)) (going (T.atoms checker.old.types) checker.old.work) (going (T.atoms checker.new.types) checker.new.work) }
{
    if has_stopped(&checker.work) {
        return;
    }
    let made = end_value_function(checker.alloc, &mut checker.work, d);
    note_made(&checker.types, &mut checker.work, made);
}

/// The function with the blocks that are open, which are its initial part and the rest, and with the workers that are done.
fn add_block_function(
    alloc: Global,
    work: &mut Work<'_>,
    d: &FunctionDef,
    unit: Unit,
    close: Place,
) -> Result<(), Memory>
    ensures stands { (env : List Atom) → Stands (state_of env work.old) → OnOk result (Stands (state_of env work.new)) }
    ensures comes { (env : List Atom) → OnOk result (Comes (adds_block_function d.now (unit_of unit) close) (state_of env work.old) (Given tt) (state_of env work.new)) }
{
    let rest = close_block(work)?;
    let initial = close_block(work)?;
    let none = Vec::new(alloc);
    let workers = mem::replace(&mut work.done.workers, none);
    let body = TypedBody::Block {
        initial: initial.stmts,
        workers,
        rest: rest.stmts,
        ends: unit.here.reached,
        close,
    };
    let f = typed_function(alloc, work.site.scope, d, unit, body)?;
    work.done.functions.push(f)?;
    leave_function(alloc, &mut work.site);
    Ok(())
}

/// A function ends at this brace.
fn end_function<T: Types>(
    alloc: Global,
    types: &mut T,
    own: &OwnTypes,
    work: &mut Work<'_>,
    d: &FunctionDef,
    close: Place,
) -> Result<(), Stop<Fault>>
    requires own { AreOwnTypes (T.atoms types.old) own.now }
    requires stands { Stands (state_of (T.atoms types.old) work.old) }
    ensures atoms { T.atoms types.new ≡ T.atoms types.old }
    ensures stands { OnOk result (Stands (state_of (T.atoms types.old) work.new)) }
    ensures comes { Comes (ends_function_of T.passes d.now close) (state_of (T.atoms types.old) work.old) result (state_of (T.atoms types.new) work.new) }
{
    let unit = close_unit(work)?;
    end_by(alloc, types, own, &unit, close)?;
    lift(add_block_function(alloc, work, d, unit, close))
}

/// The function ends at this brace ("Function with default worker and named workers"). It costs one question where its end is reached, and by its
/// body, whose events are listed.
///
/// - `MissingReturn` at the brace: its end is reached, and nil isn't of its result.
/// - `TypeLimit` there: the question is too large.
pub fn ends_function<T: Types>(checker: &mut Checker<'_, T>, d: &FunctionDef, close: Place)
    requires { Holds (T.atoms checker.old.types) checker.old.names.now checker.old.work }
    ensures holds { Holds (T.atoms checker.new.types) checker.new.names.now checker.new.work }
    ensures names { checker.new.names.now ≡ checker.old.names.now }
    ensures met { Runs (meets T.passes checker.old.names.now) (one (EndsFunction d.now close)) (going (T.atoms checker.old.types) checker.old.work) (going (T.atoms checker.new.types) checker.new.work) }
{
    if has_stopped(&checker.work) {
        return;
    }
    let answer = end_function(
        checker.alloc,
        &mut checker.types,
        &checker.names.own,
        &mut checker.work,
        d,
        close,
    );
    note(&checker.types, &mut checker.work, answer);
}
