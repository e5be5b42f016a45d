//! Sends and flushes.
#![tactic(auto, using(check_work::proofs::Noting::meeting))]

ghost use Rattle.std.specs.Prelude.{◌≡◌, ℕ, IfErr, IfOk, List, OnOk, Ok as Given, Option as OptionOf, Some as There, length};
ghost use Rattle.checks.specs.Checks.{Comes};
ghost use Rattle.descriptors.specs.Steps.{AreOwnTypes};
ghost use Rattle.needs.specs.Needs.{Runs};
ghost use Rattle.type_model.specs.declared.atoms.AtomDef.{AtomDef as Atom};
ghost use Rattle.typed_tree.specs.Listed.{one};
ghost use Rattle.typed_tree.specs.SharedTypes.{sem_of};
ghost use Rattle.expr_needs.specs.Needs.{Flushes, Sends, SendsAndWaits};
ghost use Rattle.check_words.specs.Actions.{NilOrErrors, flushes as flushes_of, sends as sends_of, sends_and_waits as sends_and_waits_of};
ghost use Rattle.check_words.specs.Meets.{meets};
ghost use Rattle.check_words.specs.Stands.{SharedBelow, SiteBelow, Stands};
ghost use Rattle.check_work.specs.Views.{Holds, going, site_of, state_of};
ghost use Rattle.needs_of_actions.specs.Failing.{failing, IsMessageType, IsRefusedFor, flush_fails_at, if_so as if_so_of, makes_message_of, sync_fails as sync_fails_of};

use crate::events::{flush_fails, sync_fails};
use crate::peers::{peer_of, result_of};
use bal_base::{Fault, Memory, Place, Stop};
use bal_tree::Peer;
use check_kinds::{kind_shared, nil_or_errors};
use check_work::{Checker, Site, Work, at_hand, gather, has_stopped, note, note_made};
use descriptors::{OwnTypes, lift};
use expr_needs::Kind;
use std::alloc::Global;
use std::rc::Rc;
use type_model::Types;
use typed_tree::{SeenEvent, SharedTy, StrictForm};

/// The last part is sent.
fn send(
    alloc: Global,
    own: &OwnTypes,
    work: &mut Work<'_>,
    peer: &Peer,
    at: Place,
) -> Result<(), Memory>
    ensures stands { (env : List Atom) → AreOwnTypes env own.now → Stands (state_of env work.old) → OnOk result (Stands (state_of env work.new)) }
    ensures comes { (env : List Atom) → AreOwnTypes env own.now → OnOk result (Comes (sends_of peer.now at) (state_of env work.old) (Given tt) (state_of env work.new)) }
{
    let p = peer_of(work, peer)?;
    let ty = kind_shared(alloc, own, Kind::Nothing)?;
    gather(&mut work.found, StrictForm::Send(p), 1, ty, at)?;
    work.ways = None;
    Ok(())
}

/// The last part is sent to the peer (Ballerina specification, "Async send action").
pub fn sends<T: Types>(checker: &mut Checker<'_, T>, peer: &Peer, at: Place)
    requires { Holds (T.atoms checker.old.types) checker.old.names.now checker.old.work }
    ensures holds { Holds (T.atoms checker.new.types) checker.new.names.now checker.new.work }
    ensures names { checker.new.names.now ≡ checker.old.names.now }
    ensures met { Runs (meets T.passes checker.old.names.now) (one (Sends peer.now at)) (going (T.atoms checker.old.types) checker.old.work) (going (T.atoms checker.new.types) checker.new.work) }
{
    if has_stopped(&checker.work) {
        return;
    }
    let made = send(
        checker.alloc,
        &checker.names.own,
        &mut checker.work,
        peer,
        at,
    );
    note_made(&checker.types, &mut checker.work, made);
}

/// Nil, and the errors of the type, to be shared.
fn nil_or_its_errors<T: Types>(
    alloc: Global,
    types: &mut T,
    t: &SharedTy,
) -> Result<SharedTy, Memory>
    requires { SharedBelow (length (T.atoms types.old)) t.now }
    ensures atoms { T.atoms types.new ≡ T.atoms types.old }
    ensures below { IfOk result (SharedBelow (length (T.atoms types.old))) }
    ensures is { IfOk result (λ u. NilOrErrors (sem_of t.now) (T.atoms types.old) u.value) }
{
    let ty = nil_or_errors(alloc, types, &t.sem)?;
    Ok(Rc::new(alloc, ty)?)
}

/// What a message or a flush gives where the worker may have failed: nil or its errors.
fn failing_type<T: Types>(
    alloc: Global,
    types: &mut T,
    site: &Site,
    worker: u32,
) -> Result<SharedTy, Stop<Fault>>
    requires { SiteBelow (length (T.atoms types.old)) (site_of site.now) }
    ensures atoms { T.atoms types.new ≡ T.atoms types.old }
    ensures below { IfOk result (SharedBelow (length (T.atoms types.old))) }
    ensures is { IfOk result (IsMessageType (T.atoms types.old) (site_of site.now) (There worker)) }
    ensures refused { IfErr result (IsRefusedFor (site_of site.now) (There worker)) }
{
    match result_of(site, worker) {
        Ok(t) => lift(nil_or_its_errors(alloc, types, t)),
        Err(stop) => Err(stop),
    }
}

/// What a message or a flush gives: nil, and where this worker may have failed, its errors.
fn message_type<T: Types>(
    alloc: Global,
    types: &mut T,
    own: &OwnTypes,
    site: &Site,
    fails: Option<u32>,
) -> Result<SharedTy, Stop<Fault>>
    requires own { AreOwnTypes (T.atoms types.old) own.now }
    requires site { SiteBelow (length (T.atoms types.old)) (site_of site.now) }
    ensures atoms { T.atoms types.new ≡ T.atoms types.old }
    ensures below { IfOk result (SharedBelow (length (T.atoms types.old))) }
    ensures is { IfOk result (IsMessageType (T.atoms types.old) (site_of site.now) fails) }
    ensures refused { IfErr result (IsRefusedFor (site_of site.now) fails) }
{
    match fails {
        Some(worker) => failing_type(alloc, types, site, worker),
        None => lift(kind_shared(alloc, own, Kind::Nothing)),
    }
}

/// What becomes of the last parts.
#[derive(Drop)]
struct Message {
    form: StrictForm,
    count: usize,
    at: Place,
}

/// So many parts become a message or a flush of this type.
fn put_message(work: &mut Work<'_>, what: Message, ty: SharedTy) -> Result<(), Memory>
    ensures stands { (env : List Atom) → SharedBelow (length env) ty → Stands (state_of env work.old) → OnOk result (Stands (state_of env work.new)) }
    ensures comes { (env : List Atom) (fails : OptionOf ℕ) → IsMessageType env (site_of work.old.site) fails ty → OnOk result (Comes (makes_message_of what.count what.form fails what.at) (state_of env work.old) (Given tt) (state_of env work.new)) }
{
    gather(&mut work.found, what.form, what.count, ty, what.at)?;
    work.ways = None;
    Ok(())
}

/// So many parts become a message or a flush, which may fail as the worker may.
fn make_message<T: Types>(
    alloc: Global,
    types: &mut T,
    own: &OwnTypes,
    work: &mut Work<'_>,
    what: Message,
    fails: Option<u32>,
) -> Result<(), Stop<Fault>>
    requires own { AreOwnTypes (T.atoms types.old) own.now }
    requires stands { Stands (state_of (T.atoms types.old) work.old) }
    ensures atoms { T.atoms types.new ≡ T.atoms types.old }
    ensures stands { OnOk result (Stands (state_of (T.atoms types.old) work.new)) }
    ensures comes { Comes (makes_message_of what.count what.form fails what.at) (state_of (T.atoms types.old) work.old) result (state_of (T.atoms types.old) work.new) }
{
    match message_type(alloc, types, own, &work.site, fails) {
        Ok(ty) => lift(put_message(work, what, ty)),
        Err(stop) => Err(stop),
    }
}

fn if_so(fails: bool, worker: u32) -> Option<u32>
    ensures { result ≡ if_so_of fails worker }
{
    match fails {
        true => Some(worker),
        false => None,
    }
}

/// The worker that a synchronous send names, where its receive may fail.
fn failing_sync(own: u32, peer: Option<u32>, at: Place, events: &[SeenEvent]) -> Option<u32>
    ensures { result ≡ failing (sync_fails_of at) own events.now peer }
{
    match peer {
        Some(worker) => if_so(sync_fails(at, own, worker, events), worker),
        None => None,
    }
}

/// The worker that a flush names, where a receive that it waits for may fail.
fn failing_flush(own: u32, peer: Option<u32>, at: Place, events: &[SeenEvent]) -> Option<u32>
    ensures { result ≡ failing (flush_fails_at at) own events.now peer }
{
    match peer {
        Some(worker) => if_so(flush_fails(at, own, worker, events), worker),
        None => None,
    }
}

/// The last part is sent, and its receive waited for.
fn send_and_wait<T: Types>(
    alloc: Global,
    types: &mut T,
    own: &OwnTypes,
    work: &mut Work<'_>,
    peer: &Peer,
    at: Place,
) -> Result<(), Stop<Fault>>
    requires own { AreOwnTypes (T.atoms types.old) own.now }
    requires stands { Stands (state_of (T.atoms types.old) work.old) }
    ensures atoms { T.atoms types.new ≡ T.atoms types.old }
    ensures stands { OnOk result (Stands (state_of (T.atoms types.old) work.new)) }
    ensures comes { Comes (sends_and_waits_of peer.now at) (state_of (T.atoms types.old) work.old) result (state_of (T.atoms types.old) work.new) }
{
    let p = peer_of(work, peer)?;
    let unit = at_hand(&work.unit)?;
    let fails = failing_sync(unit.worker, p, at, work.site.events.as_slice());
    let what = Message {
        form: StrictForm::SyncSend(p),
        count: 1,
        at,
    };
    make_message(alloc, types, own, work, what, fails)
}

/// The last part is sent to the peer, and its receive waited for, which may have failed (Ballerina specification, "Sync send
/// action"). Where the descriptor of the peer's result has a fault it is refused with it. It costs a look through the events of the
/// function.
pub fn sends_and_waits<T: Types>(checker: &mut Checker<'_, T>, peer: &Peer, at: Place)
    requires { Holds (T.atoms checker.old.types) checker.old.names.now checker.old.work }
    ensures holds { Holds (T.atoms checker.new.types) checker.new.names.now checker.new.work }
    ensures names { checker.new.names.now ≡ checker.old.names.now }
    ensures met { Runs (meets T.passes checker.old.names.now) (one (SendsAndWaits peer.now at)) (going (T.atoms checker.old.types) checker.old.work) (going (T.atoms checker.new.types) checker.new.work) }
{
    if has_stopped(&checker.work) {
        return;
    }
    let answer = send_and_wait(
        checker.alloc,
        &mut checker.types,
        &checker.names.own,
        &mut checker.work,
        peer,
        at,
    );
    note(&checker.types, &mut checker.work, answer);
}

/// The receives of what was sent are waited for.
fn flush<T: Types>(
    alloc: Global,
    types: &mut T,
    own: &OwnTypes,
    work: &mut Work<'_>,
    peer: &Peer,
    at: Place,
) -> Result<(), Stop<Fault>>
    requires own { AreOwnTypes (T.atoms types.old) own.now }
    requires stands { Stands (state_of (T.atoms types.old) work.old) }
    ensures atoms { T.atoms types.new ≡ T.atoms types.old }
    ensures stands { OnOk result (Stands (state_of (T.atoms types.old) work.new)) }
    ensures comes { Comes (flushes_of peer.now at) (state_of (T.atoms types.old) work.old) result (state_of (T.atoms types.old) work.new) }
{
    let p = peer_of(work, peer)?;
    let unit = at_hand(&work.unit)?;
    let fails = failing_flush(unit.worker, p, at, work.site.events.as_slice());
    let what = Message {
        form: StrictForm::Flush(p),
        count: 0,
        at,
    };
    make_message(alloc, types, own, work, what, fails)
}

/// The receives of what was sent to the peer are waited for, the last of which may have failed (Ballerina specification, "Flush
/// action"). Where the descriptor of the peer's result has a fault it is refused with it. It costs a look through the events of the
/// function.
pub fn flushes<T: Types>(checker: &mut Checker<'_, T>, peer: &Peer, at: Place)
    requires { Holds (T.atoms checker.old.types) checker.old.names.now checker.old.work }
    ensures holds { Holds (T.atoms checker.new.types) checker.new.names.now checker.new.work }
    ensures names { checker.new.names.now ≡ checker.old.names.now }
    ensures met { Runs (meets T.passes checker.old.names.now) (one (Flushes peer.now at)) (going (T.atoms checker.old.types) checker.old.work) (going (T.atoms checker.new.types) checker.new.work) }
{
    if has_stopped(&checker.work) {
        return;
    }
    let answer = flush(
        checker.alloc,
        &mut checker.types,
        &checker.names.own,
        &mut checker.work,
        peer,
        at,
    );
    note(&checker.types, &mut checker.work, answer);
}
