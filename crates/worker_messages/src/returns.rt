//! Returns in front of messages.
#![tactic(auto)]

ghost use Rattle.std.specs.Prelude.{◌≡◌, ◌∷◌, All, map, nat_lt};
ghost use Rattle.checks.specs.Checks.{Comes};
ghost use Rattle.type_model.specs.Defined.{IsDefined};
ghost use Rattle.worker_pairing.specs.Events.{before as before_of, count, is_message};
ghost use Rattle.worker_pairing.specs.Faults.{Atoms, all_pass, member_passes as member_passes_of, named_first, return_passes as return_passes_of};
ghost use Rattle.worker_pairing.specs.Marks.{kinds};
ghost use Rattle.worker_faults.specs.Routes.{kinds_said};
ghost use Rattle.worker_members.specs.Held.{member_held, members_held, returning_held, sem_said};
ghost use Rattle.worker_messages.specs.Defined.{AreDefined, IsMemberDefined};
ghost use Rattle.worker_messages.specs.inner.Asked.{asked, judged as judged_of};

use bal_base::{Fault, FaultCode, Kept, Place, Stop};
use checks::is_below;
use std::alloc::Global;
use type_model::{BasicSet, SemType, Types};
use worker_faults::{count_messages, first_sayings};
use worker_members::{HeldMember, HeldMembers, Returned, Said, SaidType};

/// `SuccessBefore` where what is returned isn't an error.
fn judged(is_error: bool, at: Place) -> Result<(), Stop<Fault>>
    ensures { (env : Atoms) → Comes (judged_of at is_error) env result env }
{
    match is_error {
        true => Ok(()),
        false => Err(Stop::Fault(Fault {
            code: FaultCode::SuccessBefore,
            at: Some(at),
            kept: Kept::Nothing,
        })),
    }
}

/// What is returned has to be an error: else `SuccessBefore` there. One question.
fn gives_error<T: Types>(
    alloc: Global,
    types: &mut T,
    returned: &SemType,
    at: Place,
) -> Result<(), Stop<Fault>>
    requires { IsDefined (T.atoms types.old) returned.now }
    ensures atoms { T.atoms types.new ≡ T.atoms types.old }
    ensures comes { Comes (asked T.passes returned.now at) (T.atoms types.old) result (T.atoms types.new) }
{
    match is_below(
        alloc,
        types,
        returned,
        &SemType::Basic(BasicSet::ErrorAll),
        Some(at),
    ) {
        Ok(is_error) => judged(is_error, at),
        Err(stop) => Err(stop),
    }
}

/// Whether a message stands behind so many of these events.
fn has_message_behind(sayings: &[Said<'_>], before: usize) -> bool
    ensures { result ≡ nat_lt (before_of is_message (kinds_said sayings.now) before) (count is_message (kinds_said sayings.now)) }
{
    let all = count_messages(sayings);
    let first = count_messages(first_sayings(sayings, before));
    first < all
}

/// Whether one of the worker's messages stands behind so many of its events.
fn stands_before_message(member: &HeldMember<'_>, before: usize) -> bool
    ensures { result ≡ nat_lt (before_of is_message (kinds (member_held member.now)) before) (count is_message (kinds (member_held member.now))) }
{
    has_message_behind(&member.sayings, before)
}

/// A return in front of a message of its worker gives an error.
fn return_passes<T: Types>(
    alloc: Global,
    types: &mut T,
    member: &HeldMember<'_>,
    returned: Returned<'_>,
) -> Result<(), Stop<Fault>>
    requires { IsDefined (T.atoms types.old) (sem_said returned.ty) }
    ensures atoms { T.atoms types.new ≡ T.atoms types.old }
    ensures comes { Comes (return_passes_of T.passes (member_held member.now) (returning_held returned.entry)) (T.atoms types.old) result (T.atoms types.new) }
{
    if !stands_before_message(member, returned.before) {
        return Ok(());
    }
    match returned.ty {
        SaidType::Of(t) => gives_error(alloc, types, &t.sem, returned.at),
        SaidType::Nil => gives_error(alloc, types, &SemType::Basic(BasicSet::Nil), returned.at),
    }
}

/// Some returns of a worker.
fn returns_pass<T: Types>(
    alloc: Global,
    types: &mut T,
    member: &HeldMember<'_>,
    returns: &[Returned<'_>],
) -> Result<(), Stop<Fault>>
    requires { All (λ r. IsDefined (T.atoms types.old) (sem_said r.ty)) returns.now }
    ensures atoms { T.atoms types.new ≡ T.atoms types.old }
    ensures comes { Comes (all_pass (return_passes_of T.passes (member_held member.now)) (map returning_held returns.now)) (T.atoms types.old) result (T.atoms types.new) }
{
    for returned in returns {
        return_passes(alloc, types, member, *returned)?;
    }
    Ok(())
}

/// The returns of a worker.
fn member_passes<T: Types>(
    alloc: Global,
    types: &mut T,
    member: &HeldMember<'_>,
) -> Result<(), Stop<Fault>>
    requires { IsMemberDefined (T.atoms types.old) (member_held member.now) }
    ensures atoms { T.atoms types.new ≡ T.atoms types.old }
    ensures comes { Comes (member_passes_of T.passes (member_held member.now)) (T.atoms types.old) result (T.atoms types.new) }
{
    returns_pass(alloc, types, member, &member.returns)
}

/// The returns of workers, one worker behind another.
fn all_pass_in<T: Types>(
    alloc: Global,
    types: &mut T,
    members: &[HeldMember<'_>],
) -> Result<(), Stop<Fault>>
    requires { All (λ m. IsMemberDefined (T.atoms types.old) (member_held m)) members.now }
    ensures atoms { T.atoms types.new ≡ T.atoms types.old }
    ensures comes { Comes (all_pass (member_passes_of T.passes) (map member_held members.now)) (T.atoms types.old) result (T.atoms types.new) }
{
    for member in members {
        member_passes(alloc, types, member)?;
    }
    Ok(())
}

/// The returns of the named workers, and then those of the default one.
fn named_then_own<T: Types>(
    alloc: Global,
    types: &mut T,
    own: &HeldMember<'_>,
    named: &[HeldMember<'_>],
) -> Result<(), Stop<Fault>>
    requires own { IsMemberDefined (T.atoms types.old) (member_held own.now) }
    requires named { All (λ m. IsMemberDefined (T.atoms types.old) (member_held m)) named.now }
    ensures atoms { T.atoms types.new ≡ T.atoms types.old }
    ensures comes { Comes (all_pass (member_passes_of T.passes) (named_first T.passes (member_held own.now ∷ map member_held named.now))) (T.atoms types.old) result (T.atoms types.new) }
{
    match all_pass_in(alloc, types, named) {
        Ok(()) => member_passes(alloc, types, own),
        Err(stop) => Err(stop),
    }
}

/// What a worker returns in front of one of its messages is an error, the named workers first: else `SuccessBefore` at the first return
/// for which that is not so, and `TypeLimit` there where the question is too large. One question for such a return, and each return
/// costs a look at the events of its worker.
pub fn returns_give_errors<T: Types>(
    alloc: Global,
    types: &mut T,
    members: &HeldMembers<'_>,
) -> Result<(), Stop<Fault>>
    requires { AreDefined (T.atoms types.old) (members_held members.now) }
    ensures atoms { T.atoms types.new ≡ T.atoms types.old }
    ensures comes { Comes (all_pass (member_passes_of T.passes) (named_first T.passes (members_held members.now))) (T.atoms types.old) result (T.atoms types.new) }
{
    match members.workers.split_first() {
        Some((own, named)) => named_then_own(alloc, types, own, named),
        None => Ok(()),
    }
}
