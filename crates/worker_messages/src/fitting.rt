//! What is sent fits what is received.
#![tactic(auto)]

ghost use Rattle.std.specs.Prelude.{◌≡◌, IfOk, Some as There, ℕ};
ghost use Rattle.bal_base.specs.declared.fault.FaultCode.TheVariants.{BadMessage};
ghost use Rattle.bal_base.specs.declared.fault.Kept.TheVariants.{Shape as ShowsShape};
ghost use Rattle.checks.specs.Checks.{Comes};
ghost use Rattle.checks.specs.Questions.{IsFault, IsLimitAt};
ghost use Rattle.type_model.specs.Defined.{IsDefined, NamesBelow};
ghost use Rattle.type_model.specs.SameType.{IsSameType};
ghost use Rattle.worker_pairing.specs.Faults.{IsBothOf, error_type, failure_fits as failure_fits_of, fits as fits_of};
ghost use Rattle.worker_pairing.specs.Marks.{nil_type};
ghost use Rattle.worker_members.specs.Held.{sem_said};

use bal_base::{Fault, FaultCode, Kept, Memory, Place, Shape, Stop};
use std::alloc::Global;
use type_model::{Answer, BasicSet, SemType, TypeLimit, Types};
use worker_members::SaidType;

/// `BadMessage` with what isn't received.
fn bad_message(shape: Shape, at: Place) -> Fault
    ensures { IsFault BadMessage (There at) (ShowsShape shape) result }
{
    Fault {
        code: FaultCode::BadMessage,
        at: Some(at),
        kept: Kept::Shape(shape),
    }
}

/// `TypeLimit` at the place for a question that is too large; want of memory passes.
fn too_large(stop: Stop<TypeLimit>, at: Place) -> Stop<Fault>
    ensures { IsLimitAt (There at) stop result }
{
    match stop {
        Stop::Fault(_) => Stop::Fault(Fault {
            code: FaultCode::TypeLimit,
            at: Some(at),
            kept: Kept::Nothing,
        }),
        Stop::Memory => Stop::Memory,
    }
}

/// `sent` has to be below `received`: else `BadMessage` with a shape of `sent` that isn't in `received`. One question.
#[tactic(auto, unfolding(checks::specs::Checks::Comes, worker_pairing::specs::Faults::fits))]
fn fits<T: Types>(
    alloc: Global,
    types: &mut T,
    sent: &SemType,
    received: &SemType,
    at: Place,
) -> Result<(), Stop<Fault>>
    requires left { IsDefined (T.atoms types.old) sent.now }
    requires right { IsDefined (T.atoms types.old) received.now }
    ensures atoms { T.atoms types.new ≡ T.atoms types.old }
    ensures comes { Comes (fits_of T.passes sent.now received.now (There at)) (T.atoms types.old) result (T.atoms types.new) }
{
    match types.sub(alloc, sent, received) {
        Ok(Answer::Yes) => Ok(()),
        Ok(Answer::No(shape)) => Err(Stop::Fault(bad_message(shape, at))),
        Err(stop) => Err(too_large(stop, at)),
    }
}

/// A type as it is held, where nil is this one.
fn sem<'a>(ty: SaidType<'a>, nil: &'a SemType) -> &'a SemType
    requires { nil.now ≡ nil_type }
    ensures { result.now ≡ sem_said ty.entry }
{
    match ty {
        SaidType::Of(t) => &t.sem,
        SaidType::Nil => nil,
    }
}

/// The same of types as they are held.
pub(crate) fn fits_said<T: Types>(
    alloc: Global,
    types: &mut T,
    sent: SaidType<'_>,
    received: SaidType<'_>,
    at: Place,
) -> Result<(), Stop<Fault>>
    requires left { IsDefined (T.atoms types.old) (sem_said sent) }
    requires right { IsDefined (T.atoms types.old) (sem_said received) }
    ensures atoms { T.atoms types.new ≡ T.atoms types.old }
    ensures comes { Comes (fits_of T.passes (sem_said sent.entry) (sem_said received.entry) (There at)) (T.atoms types.old) result (T.atoms types.new) }
{
    let nil = SemType::Basic(BasicSet::Nil);
    fits(alloc, types, sem(sent, &nil), sem(received, &nil), at)
}

/// The same type, in a box.
fn copied(alloc: Global, t: &SemType) -> Result<Box<SemType>, Memory>
    ensures { IfOk result (λ b. IsSameType t.now b.value) }
{
    Ok(Box::new(alloc, t.copy(alloc)?)?)
}

/// The errors among the results of a worker: how it may fail.
fn errors_of(alloc: Global, result_type: &SemType) -> Result<SemType, Memory>
    ensures is { IfOk result (IsBothOf result_type.now error_type) }
    ensures defined { IfOk result (λ u. (n : ℕ) → NamesBelow n result_type.now → NamesBelow n u) }
{
    let left = copied(alloc, result_type)?;
    let right = Box::new(alloc, SemType::Basic(BasicSet::ErrorAll))?;
    Ok(SemType::And(left, right))
}

/// How a sender may fail is below what is received: else `BadMessage`. One question.
pub(crate) fn failure_fits<T: Types>(
    alloc: Global,
    types: &mut T,
    result_type: &SemType,
    received: SaidType<'_>,
    at: Place,
) -> Result<(), Stop<Fault>>
    requires left { IsDefined (T.atoms types.old) result_type.now }
    requires right { IsDefined (T.atoms types.old) (sem_said received) }
    ensures atoms { T.atoms types.new ≡ T.atoms types.old }
    ensures comes { Comes (failure_fits_of T.passes result_type.now (sem_said received.entry) (There at)) (T.atoms types.old) result (T.atoms types.new) }
{
    let nil = SemType::Basic(BasicSet::Nil);
    match errors_of(alloc, result_type) {
        Ok(fail) => fits(alloc, types, &fail, sem(received, &nil), at),
        Err(Memory) => Err(Stop::Memory),
    }
}
