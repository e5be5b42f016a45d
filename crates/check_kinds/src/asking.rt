//! Questions whether types are of kinds.
#![tactic(auto, using(crate::proofs::Over::overs))]

ghost use Rattle.std.specs.Prelude.{◌≡◌, ◌↔◌, ℕ, IfOk, List};
ghost use Rattle.bal_base.specs.declared.shape.Shape.{Shape};
ghost use Rattle.descriptors.specs.Steps.{AreOwnTypes};
ghost use Rattle.type_model.specs.Basic.{InBasic};
ghost use Rattle.type_model.specs.declared.atoms.AtomDef.{AtomDef as Atom};
ghost use Rattle.type_model.specs.Defined.{IsDefined, NamesBelow};
ghost use Rattle.type_model.specs.Membership.{In};
ghost use Rattle.check_words.specs.Constructors.{IsFrozenType, IsReadonlyType};
ghost use Rattle.check_words.specs.Words.{OfKind, PartOf, is_within, whether_some, whether_within};
ghost use Rattle.check_kinds.specs.Over.{ComesOver};

use crate::combined::in_set;
use crate::kinds::{frozen, kind_type};
use bal_base::{Fault, Memory, Place, Stop};
use checks::{has_some, is_below, require_below};
use descriptors::OwnTypes;
use expr_needs::Kind;
use std::alloc::Global;
use type_model::{BasicSet, SemType, Types};

/// A type has to be of the kind, which costs one question.
///
/// - `NotSubtype` at the place, with a shape of the type that isn't of the kind.
/// - `TypeLimit` at the place: the question is too large.
pub fn require_kind<T: Types>(
    alloc: Global,
    types: &mut T,
    own: &OwnTypes,
    s: &SemType,
    kind: Kind,
    at: Place,
) -> Result<(), Stop<Fault>>
    requires own { AreOwnTypes (T.atoms types.old) own.now }
    requires defined { IsDefined (T.atoms types.old) s.now }
    ensures atoms { T.atoms types.new ≡ T.atoms types.old }
    ensures comes { ComesOver (is_within T.passes (OfKind kind) s.now at) (T.atoms types.old) result (T.atoms types.new) }
{
    match kind_type(alloc, own, kind) {
        Ok(want) => require_below(alloc, types, s, &want.sem, Some(at)),
        Err(Memory) => Err(Stop::Memory),
    }
}

/// Whether a type is of the kind, which costs one question. `TypeLimit` at the place where it is too large.
pub fn is_of_kind<T: Types>(
    alloc: Global,
    types: &mut T,
    own: &OwnTypes,
    s: &SemType,
    kind: Kind,
    at: Place,
) -> Result<bool, Stop<Fault>>
    requires own { AreOwnTypes (T.atoms types.old) own.now }
    requires defined { IsDefined (T.atoms types.old) s.now }
    ensures atoms { T.atoms types.new ≡ T.atoms types.old }
    ensures comes { ComesOver (whether_within T.passes (OfKind kind) s.now at) (T.atoms types.old) result (T.atoms types.new) }
{
    match kind_type(alloc, own, kind) {
        Ok(want) => is_below(alloc, types, s, &want.sem, Some(at)),
        Err(Memory) => Err(Stop::Memory),
    }
}

/// Whether all shapes of a type are immutable, which costs one question. `TypeLimit` at the place where it is too large.
pub fn is_readonly<T: Types>(
    alloc: Global,
    types: &mut T,
    s: &SemType,
    at: Place,
) -> Result<bool, Stop<Fault>>
    requires { IsDefined (T.atoms types.old) s.now }
    ensures atoms { T.atoms types.new ≡ T.atoms types.old }
    ensures comes { ComesOver (whether_within T.passes IsReadonlyType s.now at) (T.atoms types.old) result (T.atoms types.new) }
{
    let readonly = SemType::Basic(BasicSet::Readonly);
    is_below(alloc, types, s, &readonly, Some(at))
}

/// Whether all shapes of a type may stand in an immutable structure, which costs one question. `TypeLimit` at the place where it is
/// too large.
pub fn is_frozen<T: Types>(
    alloc: Global,
    types: &mut T,
    s: &SemType,
    at: Place,
) -> Result<bool, Stop<Fault>>
    requires { IsDefined (T.atoms types.old) s.now }
    ensures atoms { T.atoms types.new ≡ T.atoms types.old }
    ensures comes { ComesOver (whether_within T.passes IsFrozenType s.now at) (T.atoms types.old) result (T.atoms types.new) }
{
    match frozen(alloc) {
        Ok(want) => is_below(alloc, types, s, &want, Some(at)),
        Err(Memory) => Err(Stop::Memory),
    }
}

/// The shapes of the type that are in the set.
fn part(alloc: Global, s: &SemType, set: BasicSet) -> Result<SemType, Memory>
    ensures shapes { IfOk result (λ u. (env : List Atom) (x : Shape) → In env x u ↔ (In env x s.now × InBasic x set)) }
    ensures defined { IfOk result (λ u. (n : ℕ) → NamesBelow n s.now → NamesBelow n u) }
{
    in_set(alloc, s.copy(alloc)?, set)
}

/// Whether a type has a shape of the set, which costs one question. `TypeLimit` at the place where it is too large.
pub fn has_part<T: Types>(
    alloc: Global,
    types: &mut T,
    s: &SemType,
    set: BasicSet,
    at: Place,
) -> Result<bool, Stop<Fault>>
    requires { IsDefined (T.atoms types.old) s.now }
    ensures atoms { T.atoms types.new ≡ T.atoms types.old }
    ensures comes { ComesOver (whether_some T.passes (PartOf s.now (λ x. InBasic x set)) at) (T.atoms types.old) result (T.atoms types.new) }
{
    match part(alloc, s, set) {
        Ok(part) => has_some(alloc, types, &part, Some(at)),
        Err(Memory) => Err(Stop::Memory),
    }
}
