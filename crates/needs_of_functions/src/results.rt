//! What the workers of a function give: what each of their descriptors means, or its fault.
#![tactic(auto, using(check_kinds::proofs::Over::overs))]

ghost use Rattle.std.specs.Prelude.{◌≡◌, IfOk, OnOk, length, map};
ghost use Rattle.check_kinds.specs.Over.{ComesOver};
ghost use Rattle.descriptors.specs.Steps.{AreNames};
ghost use Rattle.type_model.specs.Calls.{KeepsTypes};
ghost use Rattle.check_words.specs.Stands.{SharedBelow};
ghost use Rattle.check_words.specs.Units.{workers_of as workers_of_body};
ghost use Rattle.needs_of_functions.specs.Results.{AddsResult, AddsResults, FindsResult, type_or_nil};

use crate::described::described;
use bal_base::{Fault, Memory, Name, Stop};
use bal_tree::{Body, TypeTree, Worker};
use check_kinds::kind_shared;
use descriptors::{Names, Scope, lift};
use expr_needs::Kind;
use std::alloc::Global;
use type_model::Types;
use typed_tree::SharedTy;

/// The workers of the body.
pub(crate) fn workers_of(body: &Body) -> &[Worker]
    ensures { result.now ≡ workers_of_body body.now }
{
    match body {
        Body::Block { workers, .. } => workers.as_slice(),
        Body::Expr { .. } => &[],
    }
}

/// Their names.
pub(crate) fn worker_names(alloc: Global, workers: &[Worker]) -> Result<Vec<Name>, Memory>
    ensures { IfOk result (λ names. names.items ≡ map (λ w. w.name.name) workers.now) }
{
    let mut names = Vec::new(alloc);
    for worker in workers {
        names.push(worker.name.name.share())?;
    }
    Ok(names)
}

/// The type of the descriptor that stands there, or nil where nothing is said.
fn type_or_nil_of<T: Types>(
    alloc: Global,
    types: &mut T,
    names: &Names,
    scope: Scope,
    tree: &Option<Box<TypeTree>>,
) -> Result<SharedTy, Stop<Fault>>
    requires { AreNames (T.atoms types.old) names.now }
    ensures comes { ComesOver (type_or_nil names.now scope tree.now) (T.atoms types.old) result (T.atoms types.new) }
    ensures below { IfOk result (SharedBelow (length (T.atoms types.new))) }
    ensures kept { KeepsTypes (T.atoms types.old) (T.atoms types.new) }
    ensures names { AreNames (T.atoms types.new) names.now }
{
    match tree {
        Some(tree) => described(alloc, types, names, scope, tree),
        None => lift(kind_shared(alloc, &names.own, Kind::Nothing)),
    }
}

/// What the descriptor means, or its fault.
fn found<T: Types>(
    alloc: Global,
    types: &mut T,
    names: &Names,
    scope: Scope,
    tree: &Option<Box<TypeTree>>,
) -> Result<Result<SharedTy, Fault>, Memory>
    requires { AreNames (T.atoms types.old) names.now }
    ensures finds { IfOk result (λ r. FindsResult names.now scope tree.now (T.atoms types.old) r (T.atoms types.new)) }
    ensures below { IfOk result (λ r. IfOk r (SharedBelow (length (T.atoms types.new)))) }
    ensures kept { KeepsTypes (T.atoms types.old) (T.atoms types.new) }
    ensures names { AreNames (T.atoms types.new) names.now }
{
    match type_or_nil_of(alloc, types, names, scope, tree) {
        Ok(t) => Ok(Ok(t)),
        Err(Stop::Fault(fault)) => Ok(Err(fault)),
        Err(Stop::Memory) => Err(Memory),
    }
}

/// What the result of one worker more is, or the fault of its descriptor.
fn add_found<T: Types>(
    alloc: Global,
    types: &mut T,
    names: &Names,
    scope: Scope,
    results: &mut Vec<Result<SharedTy, Fault>>,
    worker: &Worker,
) -> Result<(), Memory>
    requires { AreNames (T.atoms types.old) names.now }
    ensures adds { OnOk result (AddsResult names.now scope worker.now (T.atoms types.old) results.old.items results.new.items (T.atoms types.new)) }
    ensures kept { KeepsTypes (T.atoms types.old) (T.atoms types.new) }
    ensures names { AreNames (T.atoms types.new) names.now }
{
    let r = found(alloc, types, names, scope, &worker.result)?;
    results.push(r)?;
    Ok(())
}

/// Behind the result that is there, what each of the workers gives, or the fault of its descriptor. It costs by their descriptors.
pub(crate) fn add_results<T: Types>(
    alloc: Global,
    types: &mut T,
    names: &Names,
    scope: Scope,
    results: &mut Vec<Result<SharedTy, Fault>>,
    workers: &[Worker],
) -> Result<(), Memory>
    requires { AreNames (T.atoms types.old) names.now }
    ensures come { OnOk result (AddsResults names.now scope workers.now (T.atoms types.old) results.old.items results.new.items (T.atoms types.new)) }
    ensures kept { KeepsTypes (T.atoms types.old) (T.atoms types.new) }
    ensures names { AreNames (T.atoms types.new) names.now }
{
    for worker in workers {
        add_found(alloc, types, names, scope, results, worker)?;
    }
    Ok(())
}
