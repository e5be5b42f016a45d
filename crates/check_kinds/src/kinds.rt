//! Kinds of values as types.
ghost use Rattle.std.specs.Prelude.{◌≡◌, ◌<◌, ◌⊎◌, ℕ, IfOk, List, length, true};
ghost use Rattle.type_model.specs.declared.atoms.AtomDef.{AtomDef as Atom};
ghost use Rattle.type_model.specs.declared.basic.SemType.{Basic as IsBasic};
ghost use Rattle.type_model.specs.Defined.{NamesBelow, TyBelow};
ghost use Rattle.type_model.specs.Inclusion.{HasExactly};
ghost use Rattle.type_model.specs.SameType.{IsSameType};
ghost use Rattle.operations.specs.Kinds.{IsDetail, IsError, IsImmutableData, IsInteger};
ghost use Rattle.operations.specs.Structures.{IsMade};
ghost use Rattle.descriptors.specs.Described.{IsPlain};
ghost use Rattle.descriptors.specs.Steps.{AreOwnTypes};
ghost use Rattle.flow_narrowing.specs.Asked.{IsEither};
ghost use Rattle.check_words.specs.Values.{SingleOf};
ghost use Rattle.check_words.specs.Words.{OfKind};
ghost use Rattle.check_kinds.specs.Sets.{IsWritten, constant_set as set_of_constant};

use crate::combined::{in_set, out_of, with_set};
use crate::sets::{Sets, ints, kind_sets};
use bal_base::Memory;
use descriptors::{OwnTypes, plain};
use expr_needs::Kind;
use operations::Constant;
use std::alloc::Global;
use type_model::{BasicSet, SemType, Ty};

/// The type of the kind, which has no constructor choices. It names an atom only where the language has no other words for the kind.
pub fn kind_type(alloc: Global, own: &OwnTypes, kind: Kind) -> Result<Ty, Memory>
    ensures is { IfOk result (λ t. (env : List Atom) → AreOwnTypes env own.now → OfKind kind env t) }
    ensures defined { IfOk result (λ t. (env : List Atom) → AreOwnTypes env own.now → TyBelow (length env) t) }
{
    let sem = written(alloc, own, kind_sets(kind))?;
    Ok(plain(alloc, sem))
}

fn written(alloc: Global, own: &OwnTypes, sets: Sets) -> Result<SemType, Memory>
    ensures { IfOk result (IsWritten own.now sets) }
{
    match sets {
        Sets::One(set) => Ok(SemType::Basic(set)),
        Sets::Two(first, second) => or_set(alloc, SemType::Basic(first), second),
        Sets::Data => own.anydata.sem.copy(alloc),
        Sets::DataOr(set) => data_or(alloc, own, set),
    }
}

/// Anydata or the set.
fn data_or(alloc: Global, own: &OwnTypes, set: BasicSet) -> Result<SemType, Memory>
    ensures { IfOk result (IsEither (IsSameType own.now.anydata.sem) (λ s. s ≡ IsBasic set)) }
{
    let data = own.anydata.sem.copy(alloc)?;
    or_set(alloc, data, set)
}

/// The type or the set.
fn or_set(alloc: Global, t: SemType, set: BasicSet) -> Result<SemType, Memory>
    ensures { IfOk result (IsEither (λ s. s ≡ t) (λ s. s ≡ IsBasic set)) }
{
    let t = Box::new(alloc, t)?;
    let set = Box::new(alloc, SemType::Basic(set))?;
    Ok(SemType::Or(t, set))
}

/// What may stand in an immutable structure: simple values, and lists and mappings that are immutable.
pub(crate) fn frozen(alloc: Global) -> Result<SemType, Memory>
    ensures shapes { IfOk result (λ t. (env : List Atom) → HasExactly env t IsImmutableData) }
    ensures defined { IfOk result (λ t. (n : ℕ) → NamesBelow n t) }
{
    let readonly = SemType::Basic(BasicSet::Readonly);
    let values = out_of(alloc, readonly, BasicSet::ErrorAll)?;
    out_of(alloc, values, BasicSet::FunctionAll)
}

/// The details of all errors: the mappings that are immutable.
pub fn detail_type(alloc: Global) -> Result<Ty, Memory>
    ensures is { IfOk result (λ t. (env : List Atom) → IsPlain IsDetail env t) }
    ensures defined { IfOk result (λ t. (n : ℕ) → TyBelow n t) }
{
    let mappings = SemType::Basic(BasicSet::MappingAll);
    let sem = in_set(alloc, mappings, BasicSet::Readonly)?;
    Ok(plain(alloc, sem))
}

/// `int|error`
pub fn int_or_error(alloc: Global) -> Result<Ty, Memory>
    ensures is { IfOk result (λ t. (env : List Atom) → IsPlain (λ x. IsInteger x ⊎ IsError x) env t) }
    ensures defined { IfOk result (λ t. (n : ℕ) → TyBelow n t) }
{
    let numbers = SemType::Basic(ints());
    let sem = with_set(alloc, numbers, BasicSet::ErrorAll)?;
    Ok(plain(alloc, sem))
}

/// The lists or the mappings of an atom that are immutable.
fn immutable_type(alloc: Global, atom: u32) -> Result<Ty, Memory>
    ensures is { IfOk result (λ t. (env : List Atom) → IsPlain (IsMade env atom true) env t) }
    ensures defined { IfOk result (λ t. (n : ℕ) → atom < n → TyBelow n t) }
{
    let sem = in_set(alloc, SemType::Atom(atom), BasicSet::Readonly)?;
    Ok(plain(alloc, sem))
}

/// The lists or the mappings of an atom, or those of them that are immutable.
#[tactic(auto, using(crate::proofs::Shapes::made))]
pub fn made_type(alloc: Global, atom: u32, immutable: bool) -> Result<Ty, Memory>
    ensures is { IfOk result (λ t. (env : List Atom) → IsPlain (IsMade env atom immutable) env t) }
    ensures defined { IfOk result (λ t. (n : ℕ) → atom < n → TyBelow n t) }
{
    match immutable {
        true => immutable_type(alloc, atom),
        false => Ok(plain(alloc, SemType::Atom(atom))),
    }
}

/// The set of this value alone. Takes no memory.
pub fn constant_set(value: &Constant) -> BasicSet
    ensures { result ≡ set_of_constant value.now }
{
    match value {
        Constant::Nil => BasicSet::Nil,
        Constant::Bool(b) => BasicSet::Bool(*b),
        Constant::Int(i) => BasicSet::IntRange(*i, *i),
        Constant::Str(text) => BasicSet::StringOne(text.share()),
    }
}

/// The type of this value alone. Takes no memory.
pub fn single_type(alloc: Global, value: &Constant) -> Ty
    ensures is { (env : List Atom) → SingleOf value.now env result }
    ensures defined { (n : ℕ) → TyBelow n result }
{
    plain(alloc, SemType::Basic(constant_set(value)))
}
