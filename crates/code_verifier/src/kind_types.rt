//! Kinds of shapes as types.
ghost use Rattle.std.specs.Prelude.{◌≡◌, IfOk};
ghost use Rattle.type_model.specs.declared.basic.SemType.{Basic};
ghost use Rattle.code_verifier.specs.declared.sets.Sets.TheVariants.{Frozen};
ghost use Rattle.code_verifier.specs.inner.Known.{known_of};
ghost use Rattle.code_verifier.specs.KindSets.{IsAllBut, IsBoth, IsEither, IsWritten};

use crate::sets::Sets;
use bal_base::Memory;
use code_needs::Kind;
use std::alloc::Global;
use type_model::{BasicSet, SemType};

/// The shapes of the type, and all of the set.
fn with_set(alloc: Global, t: SemType, set: BasicSet) -> Result<SemType, Memory>
    ensures { IfOk result (IsEither (λ s. s ≡ t) (λ s. s ≡ Basic set)) }
{
    let t = Box::new(alloc, t)?;
    let set = Box::new(alloc, SemType::Basic(set))?;
    Ok(SemType::Or(t, set))
}

/// The shapes of the type that are in the set.
pub(crate) fn in_set(alloc: Global, t: SemType, set: BasicSet) -> Result<SemType, Memory>
    ensures { IfOk result (IsBoth (λ s. s ≡ t) (λ s. s ≡ Basic set)) }
{
    let t = Box::new(alloc, t)?;
    let set = Box::new(alloc, SemType::Basic(set))?;
    Ok(SemType::And(t, set))
}

/// The shapes that aren't in the set.
fn complement(alloc: Global, set: BasicSet) -> Result<Box<SemType>, Memory>
    ensures { IfOk result (λ u. IsAllBut set u.value) }
{
    let set = Box::new(alloc, SemType::Basic(set))?;
    Ok(Box::new(alloc, SemType::Not(set))?)
}

/// The shapes of the type that aren't in the set.
fn out_of(alloc: Global, t: SemType, set: BasicSet) -> Result<SemType, Memory>
    ensures { IfOk result (IsBoth (λ s. s ≡ t) (IsAllBut set)) }
{
    let t = Box::new(alloc, t)?;
    let rest = complement(alloc, set)?;
    Ok(SemType::And(t, rest))
}

/// What may stand in an immutable structure: simple values, and lists and mappings that are immutable.
fn frozen(alloc: Global) -> Result<SemType, Memory>
    ensures { IfOk result (IsWritten Frozen) }
{
    let readonly = SemType::Basic(BasicSet::Readonly);
    let values = out_of(alloc, readonly, BasicSet::ErrorAll)?;
    out_of(alloc, values, BasicSet::FunctionAll)
}

/// The type of the shapes of the sets.
pub(crate) fn written(alloc: Global, sets: Sets) -> Result<SemType, Memory>
    ensures { IfOk result (IsWritten sets) }
{
    match sets {
        Sets::One(set) => Ok(SemType::Basic(set)),
        Sets::Either(first, second) => with_set(alloc, SemType::Basic(first), second),
        Sets::Both(first, second) => in_set(alloc, SemType::Basic(first), second),
        Sets::Frozen => frozen(alloc),
    }
}

/// Types that no basic set says, written over the atoms of the types that are asked.
#[derive(Drop)]
pub struct KnownTypes {
    /// `anydata`
    pub anydata: SemType,
    /// `anydata|readonly`: what may be sent to another worker.
    pub sendable: SemType,
}

/// The known type of a kind that has anydata in it.
pub(crate) fn known_type(known: &KnownTypes, kind: Kind) -> &SemType
    ensures { result.now ≡ known_of known.now kind }
{
    match kind {
        Kind::Sendable => &known.sendable,
        Kind::Nils | Kind::Booleans | Kind::Integers | Kind::Strings => &known.anydata,
        Kind::Lists | Kind::Mappings | Kind::Errors | Kind::Functions => &known.anydata,
        Kind::Futures | Kind::Anydata | Kind::ImmutableData => &known.anydata,
        Kind::Details | Kind::NilsOrErrors => &known.anydata,
        Kind::MappingsOrNils | Kind::IntegersOrErrors => &known.anydata,
    }
}
