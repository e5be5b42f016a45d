//! Questions about types, asked at a place: a fault has this place.
ghost use Rattle.std.specs.Prelude.{◌≡◌, All, OnErr};
ghost use Rattle.bal_base.specs.declared.fault.FaultCode.{FaultCode as Code};
ghost use Rattle.bal_base.specs.declared.fault.Kept.{Kept as KeptOf};
ghost use Rattle.type_model.specs.Application.{IsFunctionType, IsListType};
ghost use Rattle.type_model.specs.Calls.{KeepsTypes};
ghost use Rattle.type_model.specs.Defined.{IsDefined, IsDefinedGroup, IsEnv};
ghost use Rattle.type_model.specs.Places.{HasDistinctFields};
ghost use Rattle.checks.specs.Checks.{Comes};
ghost use Rattle.checks.specs.Questions.{adds, applied, below, has_some as has_some_of, is_below as is_below_of, member as member_of, IsFault, IsLimitAt, IsYes, IsFound};

use bal_base::{Fault, FaultCode, Kept, Place, Shape, Stop};
use std::alloc::Global;
use type_model::{Answer, Apply, AtomDef, AtomLimit, Keys, SemType, TypeLimit, Types};

/// A fault at this place.
fn fault(code: FaultCode, at: Option<Place>, kept: Kept) -> Fault
    ensures { IsFault code at kept result }
{
    Fault { code, at, kept }
}

/// `TypeLimit` at the place for a question that is too large; want of memory passes.
fn too_large(stop: Stop<TypeLimit>, at: Option<Place>) -> Stop<Fault>
    ensures { IsLimitAt at stop result }
{
    match stop {
        Stop::Fault(_) => Stop::Fault(fault(FaultCode::TypeLimit, at, Kept::Nothing)),
        Stop::Memory => Stop::Memory,
    }
}

/// Whether the answer is yes; the shape of a no is given up.
fn is_yes(answer: Answer) -> bool
    ensures { IsYes answer result }
{
    match answer {
        Answer::Yes => true,
        Answer::No(_) => false,
    }
}

/// Whether a shape was found, which is given up.
fn is_found(found: Option<Shape>) -> bool
    ensures { IsFound found result }
{
    match found {
        Some(_) => true,
        None => false,
    }
}

/// `s` has to be below `t`: else `NotSubtype` with a shape of `s` that isn't in `t`.
#[tactic(auto, unfolding(crate::specs::Checks::Comes, crate::specs::Questions::below))]
pub fn require_below<T: Types>(
    alloc: Global,
    types: &mut T,
    s: &SemType,
    t: &SemType,
    at: Option<Place>,
) -> Result<(), Stop<Fault>>
    requires left { IsDefined (T.atoms types.old) s.now }
    requires right { IsDefined (T.atoms types.old) t.now }
    ensures atoms { T.atoms types.new ≡ T.atoms types.old }
    ensures comes { Comes (below T.passes s.now t.now at) (T.atoms types.old) result (T.atoms types.new) }
{
    match types.sub(alloc, s, t) {
        Ok(Answer::Yes) => Ok(()),
        Ok(Answer::No(shape)) => Err(Stop::Fault(fault(
            FaultCode::NotSubtype,
            at,
            Kept::Shape(shape),
        ))),
        Err(stop) => Err(too_large(stop, at)),
    }
}

/// Whether `s` is below `t`.
#[tactic(auto, unfolding(crate::specs::Checks::Comes, crate::specs::Questions::is_below))]
pub fn is_below<T: Types>(
    alloc: Global,
    types: &mut T,
    s: &SemType,
    t: &SemType,
    at: Option<Place>,
) -> Result<bool, Stop<Fault>>
    requires left { IsDefined (T.atoms types.old) s.now }
    requires right { IsDefined (T.atoms types.old) t.now }
    ensures atoms { T.atoms types.new ≡ T.atoms types.old }
    ensures comes { Comes (is_below_of T.passes s.now t.now at) (T.atoms types.old) result (T.atoms types.new) }
{
    match types.sub(alloc, s, t) {
        Ok(answer) => Ok(is_yes(answer)),
        Err(stop) => Err(too_large(stop, at)),
    }
}

/// Whether `t` has a shape.
#[tactic(auto, unfolding(crate::specs::Checks::Comes, crate::specs::Questions::has_some))]
pub fn has_some<T: Types>(
    alloc: Global,
    types: &mut T,
    t: &SemType,
    at: Option<Place>,
) -> Result<bool, Stop<Fault>>
    requires { IsDefined (T.atoms types.old) t.now }
    ensures atoms { T.atoms types.new ≡ T.atoms types.old }
    ensures comes { Comes (has_some_of T.passes t.now at) (T.atoms types.old) result (T.atoms types.new) }
{
    match types.has_shape(alloc, t) {
        Ok(found) => Ok(is_found(found)),
        Err(stop) => Err(too_large(stop, at)),
    }
}

/// The type of what stands at such keys in the shapes of `t`.
#[tactic(auto, unfolding(crate::specs::Checks::Comes, crate::specs::Questions::member))]
pub fn member<T: Types>(
    alloc: Global,
    types: &mut T,
    t: &SemType,
    keys: &Keys,
    at: Option<Place>,
) -> Result<SemType, Stop<Fault>>
    requires { IsDefined (T.atoms types.old) t.now }
    ensures atoms { T.atoms types.new ≡ T.atoms types.old }
    ensures comes { Comes (member_of T.passes t.now keys.now at) (T.atoms types.old) result (T.atoms types.new) }
{
    match types.member(alloc, t, keys) {
        Ok(found) => Ok(found),
        Err(stop) => Err(too_large(stop, at)),
    }
}

/// The least type of what functions of `f` give to arguments in `args`: `NotSubtype` with arguments outside the domain, if there are.
#[tactic(auto, unfolding(crate::specs::Checks::Comes, crate::specs::Questions::applied))]
pub fn apply<T: Types>(
    alloc: Global,
    types: &mut T,
    f: &SemType,
    args: &SemType,
    at: Option<Place>,
) -> Result<SemType, Stop<Fault>>
    requires f_defined { IsDefined (T.atoms types.old) f.now }
    requires args_defined { IsDefined (T.atoms types.old) args.now }
    requires functions { IsFunctionType (T.atoms types.old) f.now }
    requires lists { IsListType (T.atoms types.old) args.now }
    ensures atoms { T.atoms types.new ≡ T.atoms types.old }
    ensures comes { Comes (applied T.passes f.now args.now at) (T.atoms types.old) result (T.atoms types.new) }
{
    match types.apply(alloc, f, args) {
        Ok(Apply::Result(result)) => Ok(result),
        Ok(Apply::Outside(shape)) => Err(Stop::Fault(fault(
            FaultCode::NotSubtype,
            at,
            Kept::Shape(shape),
        ))),
        Err(stop) => Err(too_large(stop, at)),
    }
}

/// Numbers a group of atoms, which may name each other, from the number that it gives. `AtomLimit` comes exactly where there
/// would be too many. After a refusal, and where memory is wanted, the atoms are as before.
#[tactic(auto, unfolding(crate::specs::Checks::Comes, crate::specs::Questions::adds))]
pub fn add<T: Types>(
    alloc: Global,
    types: &mut T,
    defs: Vec<AtomDef>,
    at: Option<Place>,
) -> Result<u32, Stop<Fault>>
    requires named { IsDefinedGroup (T.atoms types.old) defs.items }
    requires distinct { All HasDistinctFields defs.items }
    ensures kept { KeepsTypes (T.atoms types.old) (T.atoms types.new) }
    ensures env { IsEnv (T.atoms types.new) }
    ensures refused { OnErr result (T.atoms types.new ≡ T.atoms types.old) }
    ensures comes { Comes (adds (λ old group. group ≡ defs.items) at) (T.atoms types.old) result (T.atoms types.new) }
{
    match types.add(alloc, defs) {
        Ok(first) => Ok(first),
        Err(Stop::Fault(AtomLimit)) => Err(Stop::Fault(fault(
            FaultCode::AtomLimit,
            at,
            Kept::Nothing,
        ))),
        Err(Stop::Memory) => Err(Stop::Memory),
    }
}
