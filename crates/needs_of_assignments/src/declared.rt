//! Declarations of local variables.
#![tactic(auto, using(check_work::proofs::Noting::meeting))]

ghost use Rattle.std.specs.Prelude.{◌≡◌, List, OnOk, Ok as Given};
ghost use Rattle.checks.specs.Checks.{Comes};
ghost use Rattle.needs.specs.Needs.{Runs};
ghost use Rattle.stmt_needs.specs.PackageTable.{within};
ghost use Rattle.stmt_needs.specs.StmtTable.{is_among};
ghost use Rattle.type_model.specs.declared.atoms.AtomDef.{AtomDef as Atom};
ghost use Rattle.typed_tree.specs.Listed.{one};
ghost use Rattle.expr_needs.specs.Needs.{Declares, IsNew};
ghost use Rattle.check_words.specs.Meets.{meets};
ghost use Rattle.check_words.specs.Stands.{Stands};
ghost use Rattle.check_words.specs.Statements.{declares as declares_of, local_variable};
ghost use Rattle.check_work.specs.Views.{Holds, going, state_of};

use crate::stmts;
use assigned_names::is_assigned;
use bal_base::{Memory, Name, Place};
use bal_tree::Word;
use check_work::{
    Checker, Work, add_stmt, declare, has_stopped, keep, new_name, note, note_made, shared,
    take_want,
};
use flow_narrowing::Variable;
use std::alloc::Global;
use stmt_needs::Around;
use type_model::Types;
use typed_tree::SharedTy;

/// No variable that is seen and no worker of the function has the name (Ballerina specification, "Scope of variables"). It
/// costs by the variables that are seen.
///
/// - `Duplicate` at the name: one has it.
pub fn is_new<T: Types>(checker: &mut Checker<'_, T>, name: &Word)
    requires { Holds (T.atoms checker.old.types) checker.old.names.now checker.old.work }
    ensures holds { Holds (T.atoms checker.new.types) checker.new.names.now checker.new.work }
    ensures names { checker.new.names.now ≡ checker.old.names.now }
    ensures met { Runs (meets T.passes checker.old.names.now) (one (IsNew name.now)) (going (T.atoms checker.old.types) checker.old.work) (going (T.atoms checker.new.types) checker.new.work) }
{
    if has_stopped(&checker.work) {
        return;
    }
    let answer = new_name(&checker.work, name);
    note(&checker.types, &mut checker.work, answer);
}

/// A variable as it is declared.
fn local(name: &Name, slot: u32, declared: SharedTy, is_final: bool, is_assigned: bool) -> Variable
    ensures { result ≡ local_variable name.now slot declared is_final is_assigned }
{
    Variable {
        name: name.share(),
        slot,
        declared,
        narrowed: None,
        fixed: is_final,
        assigned: is_assigned,
        captured: false,
    }
}

/// A variable of the wanted type has the value of the last part.
fn declare_local(
    alloc: Global,
    work: &mut Work<'_>,
    name: &Name,
    is_final: bool,
    is_assigned: bool,
    at: Place,
) -> Result<(), Memory>
    ensures stands { (env : List Atom) → Stands (state_of env work.old) → OnOk result (Stands (state_of env work.new)) }
    ensures comes { (env : List Atom) → OnOk result (Comes (declares_of name.now is_final is_assigned at) (state_of env work.old) (Given tt) (state_of env work.new)) }
{
    let value = stmts::take_boxed(alloc, work)?;
    let ty = take_want(work)?;
    let kept = shared(&ty)?;
    let slot = keep(work, kept)?;
    declare(work, local(name, slot, ty, is_final, is_assigned))?;
    add_stmt(&mut work.blocks, stmts::set(slot, value, at))?;
    Ok(())
}

/// The same, where this stands around it.
fn declare_within(
    alloc: Global,
    work: &mut Work<'_>,
    name: &Name,
    is_final: bool,
    around: Around<'_>,
    at: Place,
) -> Result<(), Memory>
    ensures stands { (env : List Atom) → Stands (state_of env work.old) → OnOk result (Stands (state_of env work.new)) }
    ensures comes { (env : List Atom) → OnOk result (Comes (declares_of name.now is_final (is_among name.now (within around.entry).behind) at) (state_of env work.old) (Given tt) (state_of env work.new)) }
{
    let again = is_assigned(alloc, name, around.following, around.workers, around.rest)?;
    declare_local(alloc, work, name, is_final, again, at)?;
    Ok(())
}

/// A variable of this name has the wanted type, a slot of its own, and the value of the last part (Ballerina specification,
/// "Local variable declaration statement"). It costs by the statements behind it that see it, in which it may be assigned.
pub fn declares<T: Types>(
    checker: &mut Checker<'_, T>,
    name: &Word,
    is_final: bool,
    around: Around<'_>,
    at: Place,
)
    requires { Holds (T.atoms checker.old.types) checker.old.names.now checker.old.work }
    ensures holds { Holds (T.atoms checker.new.types) checker.new.names.now checker.new.work }
    ensures names { checker.new.names.now ≡ checker.old.names.now }
    ensures met { Runs (meets T.passes checker.old.names.now) (one (Declares name.now.name is_final (is_among name.now.name (within around.entry).behind) at)) (going (T.atoms checker.old.types) checker.old.work) (going (T.atoms checker.new.types) checker.new.work) }
{
    if has_stopped(&checker.work) {
        return;
    }
    let made = declare_within(
        checker.alloc,
        &mut checker.work,
        &name.name,
        is_final,
        around,
        at,
    );
    note_made(&checker.types, &mut checker.work, made);
}
