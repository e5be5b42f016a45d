//! Functions: where they begin.
#![tactic(auto, using(check_work::proofs::Noting::meeting))]

ghost use Rattle.std.specs.Prelude.{◌≡◌, ℕ, All, IfOk, List, OnOk, Ok as Given, length, option_map};
ghost use Rattle.std.specs.List.{AllZip};
ghost use Rattle.checks.specs.Checks.{Comes};
ghost use Rattle.descriptors.specs.Described.{IsCopy};
ghost use Rattle.descriptors.specs.Steps.{AreNames, SignatureBelow};
ghost use Rattle.needs.specs.Needs.{Runs};
ghost use Rattle.type_model.specs.Calls.{KeepsTypes};
ghost use Rattle.typed_tree.specs.Listed.{one};
ghost use Rattle.typed_tree.specs.Skeleton.{events_of_body};
ghost use Rattle.expr_needs.specs.Needs.{BeginsFunction};
ghost use Rattle.check_words.specs.Meets.{meets};
ghost use Rattle.check_words.specs.Stands.{SharedBelow, Stands, UnitBelow};
ghost use Rattle.check_words.specs.Units.{AreSlots, begins_function as begins_function_of};
ghost use Rattle.check_work.specs.Views.{Holds, going, site_of, state_of, unit_of};
ghost use Rattle.needs_of_functions.specs.Results.{IsFunctionSite, IsFunctionUnit};

use crate::copies::{copied, list_type};
use crate::naming::signature_of;
use crate::results::{add_results, worker_names, workers_of};
use bal_base::Memory;
use bal_tree::FunctionDef;
use check_work::{Checker, Here, Site, Unit, Work, has_stopped, note_made, shared};
use descriptors::{Names, Scope, Signature};
use needs_of_units::open_unit;
use std::alloc::Global;
use type_model::{Ty, Types};
use typed_tree::{SeenEvents, SharedTy, skeleton_of_body};

/// The types of the parameters.
fn parameter_slots(alloc: Global, params: &[Ty]) -> Result<Vec<SharedTy>, Memory>
    ensures { IfOk result (λ slots. AllZip (λ t u. IsCopy t u.value) params.now slots.items) }
{
    let mut slots = Vec::new(alloc);
    for t in params {
        slots.push(copied(alloc, t)?)?;
    }
    Ok(slots)
}

/// The types of the parameters, what takes the rest being a list.
fn function_slots(alloc: Global, f: &Signature) -> Result<Vec<SharedTy>, Memory>
    ensures { IfOk result (λ slots. AreSlots f.now slots.items) }
{
    let params = f.params.as_slice();
    let mut slots = parameter_slots(alloc, params)?;
    match &f.rest {
        Some(_) => {
            let lists = list_type(alloc, f.lists)?;
            slots.push(lists)?;
            Ok(slots)
        }
        None => Ok(slots),
    }
}

/// The atom of the lists of what takes the rest, if something does.
fn rest_atom(f: &Signature) -> Option<u32>
    ensures { result ≡ option_map (λ t. f.now.lists) f.now.rest }
{
    match &f.rest {
        Some(_) => Some(f.lists),
        None => None,
    }
}

/// How many slots there are. Where they are too many it is as if memory were wanted.
fn count(slots: &[SharedTy]) -> Result<u32, Memory>
    ensures { IfOk result (λ n. n ≡ length slots.now) }
{
    let number = slots.len();
    if number > u32::MAX as usize {
        return Err(Memory);
    }
    Ok(number as u32)
}

/// The unit of the function, which gives this. One with too many parameters is as if memory were wanted.
fn function_unit(alloc: Global, f: &Signature, gives: SharedTy) -> Result<Unit, Memory>
    ensures is { IfOk result (λ u. IsFunctionUnit f.now gives (unit_of u)) }
    ensures below { (n : ℕ) → SignatureBelow n f.now → SharedBelow n gives → IfOk result (λ u. UnitBelow n (unit_of u)) }
{
    let slots = function_slots(alloc, f)?;
    let all = slots.as_slice();
    let params = count(all)?;
    let captured = Vec::new(alloc);
    let variables = Vec::new(alloc);
    Ok(Unit {
        number: f.unit,
        worker: 0,
        slots,
        params,
        rest: rest_atom(f),
        rest_member: None,
        result: gives,
        arrow: f.arrow,
        future: f.future,
        captured,
        here: Here {
            variables,
            reached: true,
        },
    })
}

/// Where the function stands: its workers, what each of them gives, the default one first, and its events.
fn function_site<T: Types>(
    alloc: Global,
    types: &mut T,
    names: &Names,
    scope: Scope,
    d: &FunctionDef,
    gives: SharedTy,
) -> Result<Site, Memory>
    requires { AreNames (T.atoms types.old) names.now }
    ensures is { IfOk result (λ site. IsFunctionSite names.now scope d.now gives (T.atoms types.old) (site_of site) (T.atoms types.new)) }
    ensures kept { KeepsTypes (T.atoms types.old) (T.atoms types.new) }
    ensures names { AreNames (T.atoms types.new) names.now }
{
    let all = workers_of(&d.body);
    let workers = worker_names(alloc, all)?;
    let seen = skeleton_of_body(alloc, &d.body)?;
    let mut results = Vec::new(alloc);
    results.push(Ok(gives))?;
    add_results(alloc, types, names, scope, &mut results, all)?;
    Ok(Site {
        scope,
        workers,
        results,
        events: SeenEvents::of(seen),
    })
}

/// The function begins.
fn begin_function<T: Types>(
    alloc: Global,
    types: &mut T,
    names: &Names,
    work: &mut Work<'_>,
    d: &FunctionDef,
) -> Result<(), Memory>
    requires names { AreNames (T.atoms types.old) names.now }
    requires stands { Stands (state_of (T.atoms types.old) work.old) }
    ensures kept { KeepsTypes (T.atoms types.old) (T.atoms types.new) }
    ensures stands { OnOk result (Stands (state_of (T.atoms types.new) work.new)) }
    ensures comes { OnOk result (Comes (begins_function_of names.now d.now) (state_of (T.atoms types.old) work.old) (Given tt) (state_of (T.atoms types.new) work.new)) }
{
    let scope = work.site.scope;
    let f = signature_of(names, scope, &d.name)?;
    let gives = copied(alloc, &f.result)?;
    let handle = shared(&gives)?;
    let unit = function_unit(alloc, f, handle)?;
    let site = function_site(alloc, types, names, scope, d, gives)?;
    work.site = site;
    open_unit(work, unit)?;
    Ok(())
}

/// A function begins with its parameters, which have no names yet ("Function definition"). What its workers give is found, or the faults of their
/// descriptors, which are told where they are asked for. It costs by the sizes of its types, by the descriptors of its workers' results and by its
/// body, whose events are listed.
pub fn begins_function<T: Types>(checker: &mut Checker<'_, T>, d: &FunctionDef)
    requires { Holds (T.atoms checker.old.types) checker.old.names.now checker.old.work }
    ensures holds { Holds (T.atoms checker.new.types) checker.new.names.now checker.new.work }
    ensures names { checker.new.names.now ≡ checker.old.names.now }
    ensures met { Runs (meets T.passes checker.old.names.now) (one (BeginsFunction d.now)) (going (T.atoms checker.old.types) checker.old.work) (going (T.atoms checker.new.types) checker.new.work) }
{
    if has_stopped(&checker.work) {
        return;
    }
    let made = begin_function(
        checker.alloc,
        &mut checker.types,
        checker.names,
        &mut checker.work,
        d,
    );
    note_made(&checker.types, &mut checker.work, made);
}
