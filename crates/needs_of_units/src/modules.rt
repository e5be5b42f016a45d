//! Files and modules: where they begin, and where they end.
#![tactic(auto, using(check_work::proofs::Noting::meeting))]

ghost use Rattle.std.specs.Prelude.{◌≡◌, ◌++◌, ◌∷◌, [], IfOk, List, OnOk, Ok as Given, Some as There};
ghost use Rattle.checks.specs.Checks.{Comes};
ghost use Rattle.needs.specs.Needs.{Runs};
ghost use Rattle.type_model.specs.declared.atoms.AtomDef.{AtomDef as Atom};
ghost use Rattle.typed_tree.specs.Listed.{one};
ghost use Rattle.expr_needs.specs.Needs.{EndsModule, EntersFile};
ghost use Rattle.check_words.specs.Meets.{meets};
ghost use Rattle.check_words.specs.Stands.{Stands};
ghost use Rattle.check_words.specs.Units.{IsInitialiser, ends_module as ends_module_of, enters_file as enters_file_of};
ghost use Rattle.check_work.specs.Views.{Holds, going, initials_of, state_of};

use crate::units::finished;
use bal_base::Memory;
use check_work::{Checker, Initials, Work, has_stopped, note_made};
use descriptors::Scope;
use std::mem;
use type_model::Types;
use typed_tree::Initialiser;

/// What follows stands in this file of this module.
fn enter_file(work: &mut Work<'_>, number: usize, file: usize)
    ensures stands { (env : List Atom) → Stands (state_of env work.old) → Stands (state_of env work.new) }
    ensures comes { (env : List Atom) → Comes (enters_file_of number file) (state_of env work.old) (Given tt) (state_of env work.new) }
{
    work.site.scope = Scope {
        module: number,
        file: Some(file),
    };
}

/// What follows stands in the file with this number among those of the module with this number. Takes no memory.
pub fn enters_file<T: Types>(checker: &mut Checker<'_, T>, number: usize, file: usize)
    requires { Holds (T.atoms checker.old.types) checker.old.names.now checker.old.work }
    ensures holds { Holds (T.atoms checker.new.types) checker.new.names.now checker.new.work }
    ensures names { checker.new.names.now ≡ checker.old.names.now }
    ensures met { Runs (meets T.passes checker.old.names.now) (one (EntersFile number file)) (going (T.atoms checker.old.types) checker.old.work) (going (T.atoms checker.new.types) checker.new.work) }
{
    if has_stopped(&checker.work) {
        return;
    }
    enter_file(&mut checker.work, number, file);
    note_made(&checker.types, &mut checker.work, Ok(()));
}

/// The initialiser of the module with this number, as typed trees have it. A number that is none of a tree is as if memory were wanted.
fn initialiser(initials: Initials, number: usize) -> Result<Initialiser, Memory>
    ensures { IfOk result (IsInitialiser number (initials_of initials)) }
{
    if number > u32::MAX as usize {
        return Err(Memory);
    }
    let (unit, _captured) = finished(initials.unit, 0, 0);
    Ok(Initialiser {
        module: number as u32,
        unit,
        values: initials.values,
    })
}

/// The module's initialiser, if it has one, is done.
fn end_module(work: &mut Work<'_>, number: usize) -> Result<(), Memory>
    ensures stands { (env : List Atom) → Stands (state_of env work.old) → OnOk result (Stands (state_of env work.new)) }
    ensures comes { (env : List Atom) → OnOk result (Comes (ends_module_of number) (state_of env work.old) (Given tt) (state_of env work.new)) }
{
    match mem::replace(&mut work.initials, None) {
        Some(initials) => work.done.initialisers.push(initialiser(initials, number)?)?,
        None => {}
    }
    Ok(())
}

/// The module with this number ends: its initialiser, if it has variables, is done ("Module initialization"). Takes memory for one more initialiser.
pub fn ends_module<T: Types>(checker: &mut Checker<'_, T>, number: usize)
    requires { Holds (T.atoms checker.old.types) checker.old.names.now checker.old.work }
    ensures holds { Holds (T.atoms checker.new.types) checker.new.names.now checker.new.work }
    ensures names { checker.new.names.now ≡ checker.old.names.now }
    ensures met { Runs (meets T.passes checker.old.names.now) (one (EndsModule number)) (going (T.atoms checker.old.types) checker.old.work) (going (T.atoms checker.new.types) checker.new.work) }
{
    if has_stopped(&checker.work) {
        return;
    }
    let made = end_module(&mut checker.work, number);
    note_made(&checker.types, &mut checker.work, made);
}
