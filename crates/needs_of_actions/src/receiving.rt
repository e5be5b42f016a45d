//! Receives.
#![tactic(auto, using(check_work::proofs::Noting::meeting))]

ghost use Rattle.std.specs.Prelude.{◌≡◌, IfOk, List, None as Missing, OnOk, Ok as Given, Option as OptionOf, Some as There, length};
ghost use Rattle.checks.specs.Checks.{Comes};
ghost use Rattle.flow_narrowing.specs.Flows.{AreSame, IfShared};
ghost use Rattle.needs.specs.Needs.{Runs};
ghost use Rattle.type_model.specs.declared.atoms.AtomDef.{AtomDef as Atom};
ghost use Rattle.type_model.specs.Defined.{TyBelow};
ghost use Rattle.typed_tree.specs.Listed.{one};
ghost use Rattle.typed_tree.specs.SharedTypes.{Shared};
ghost use Rattle.bal_tree.specs.declared.action.Peer.{Peer as PeerOf};
ghost use Rattle.expr_needs.specs.declared.expected.Expected.TheVariants.{Wanted as IsWanted};
ghost use Rattle.expr_needs.specs.Needs.{Receives};
ghost use Rattle.check_words.specs.Actions.{receives as receives_of, receives_as};
ghost use Rattle.check_words.specs.Meets.{meets};
ghost use Rattle.check_words.specs.Sharing.{SameShared};
ghost use Rattle.check_words.specs.Stands.{SharedBelow, Stands};
ghost use Rattle.check_words.specs.State.{State};
ghost use Rattle.check_work.specs.Views.{Holds, going, state_of};
ghost use Rattle.needs_of_actions.specs.LastWant.{IsWantedBy, is_stated as is_stated_of};

use crate::peers::peer_of;
use bal_base::{Fault, FaultCode, Kept, Memory, Place, Stop};
use bal_tree::Peer;
use check_work::{Checker, Work, gather, has_stopped, last, note, shared_if};
use descriptors::lift;
use expr_needs::Expected;
use type_model::Types;
use typed_tree::{SharedTy, StrictForm};

/// A receive whose type isn't known is refused.
fn refusal(at: Place) -> Result<(), Stop<Fault>>
    ensures { (peer : PeerOf) (s : State) → Comes (receives_as Missing peer at) s result s }
{
    Err(Stop::Fault(Fault {
        code: FaultCode::NeedsType,
        at: Some(at),
        kept: Kept::Nothing,
    }))
}

/// The type that is wanted last, if one is known.
fn wanted(wants: &[Option<SharedTy>]) -> Result<Option<SharedTy>, Memory>
    ensures { IfOk result (IsWantedBy wants.now) }
{
    match last(wants) {
        Some(want) => Ok(shared_if(want)?),
        None => Err(Memory),
    }
}

/// A message of the type is received.
fn receive_as(work: &mut Work<'_>, t: SharedTy, peer: &Peer, at: Place) -> Result<(), Memory>
    ensures stands { (env : List Atom) → SharedBelow (length env) t → Stands (state_of env work.old) → OnOk result (Stands (state_of env work.new)) }
    ensures comes { (env : List Atom) (u : Shared) → SameShared u t → OnOk result (Comes (receives_as (There u) peer.now at) (state_of env work.old) (Given tt) (state_of env work.new)) }
{
    let p = peer_of(work, peer)?;
    gather(&mut work.found, StrictForm::Receive(p), 0, t, at)?;
    work.ways = None;
    Ok(())
}

/// A message of the type is received, if one is known.
fn receive_if(
    work: &mut Work<'_>,
    want: Option<SharedTy>,
    peer: &Peer,
    at: Place,
) -> Result<(), Stop<Fault>>
    ensures stands { (env : List Atom) → IfShared (TyBelow (length env)) want → Stands (state_of env work.old) → OnOk result (Stands (state_of env work.new)) }
    ensures comes { (env : List Atom) (w : OptionOf Shared) → AreSame w want → Comes (receives_as w peer.now at) (state_of env work.old) result (state_of env work.new) }
{
    match want {
        Some(t) => lift(receive_as(work, t, peer, at)),
        None => refusal(at),
    }
}

/// A message of the type that is wanted last is received.
fn receive_wanted(work: &mut Work<'_>, peer: &Peer, at: Place) -> Result<(), Stop<Fault>>
    ensures stands { (env : List Atom) → Stands (state_of env work.old) → OnOk result (Stands (state_of env work.new)) }
    ensures comes { (env : List Atom) → Comes (receives_of IsWanted peer.now at) (state_of env work.old) result (state_of env work.new) }
{
    match wanted(work.wants.as_slice()) {
        Ok(want) => receive_if(work, want, peer, at),
        Err(Memory) => Err(Stop::Memory),
    }
}

/// Whether what is wanted says what is expected.
fn is_stated(expected: Expected) -> bool
    ensures { result ≡ is_stated_of expected }
{
    match expected {
        Expected::Wanted => true,
        Expected::Nothing => false,
        Expected::Immutable => false,
    }
}

/// A message is received.
fn receive(
    work: &mut Work<'_>,
    expected: Expected,
    peer: &Peer,
    at: Place,
) -> Result<(), Stop<Fault>>
    ensures stands { (env : List Atom) → Stands (state_of env work.old) → OnOk result (Stands (state_of env work.new)) }
    ensures comes { (env : List Atom) → Comes (receives_of expected peer.now at) (state_of env work.old) result (state_of env work.new) }
{
    if is_stated(expected) {
        return receive_wanted(work, peer, at);
    }
    refusal(at)
}

/// A message of the peer is received, of the type that is expected there (Ballerina specification, "Single receive action"): `NeedsType`
/// at the place where none is known.
pub fn receives<T: Types>(checker: &mut Checker<'_, T>, expected: Expected, peer: &Peer, at: Place)
    requires { Holds (T.atoms checker.old.types) checker.old.names.now checker.old.work }
    ensures holds { Holds (T.atoms checker.new.types) checker.new.names.now checker.new.work }
    ensures names { checker.new.names.now ≡ checker.old.names.now }
    ensures met { Runs (meets T.passes checker.old.names.now) (one (Receives expected peer.now at)) (going (T.atoms checker.old.types) checker.old.work) (going (T.atoms checker.new.types) checker.new.work) }
{
    if has_stopped(&checker.work) {
        return;
    }
    let answer = receive(&mut checker.work, expected, peer, at);
    note(&checker.types, &mut checker.work, answer);
}
