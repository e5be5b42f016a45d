//! Types that are put together of others, written anew, so that they don't grow where they are put together again and again.
ghost use Rattle.std.specs.Prelude.{◌≡◌, ◌⊎◌, All, Any, IfOk, length};
ghost use Rattle.descriptors.specs.Described.{IsPlain};
ghost use Rattle.operations.specs.Kinds.{IsError, IsNil};
ghost use Rattle.type_model.specs.Basic.{InBasic};
ghost use Rattle.type_model.specs.Defined.{IsDefined, TyBelow};
ghost use Rattle.type_model.specs.Membership.{In};
ghost use Rattle.check_words.specs.Actions.{NilOrErrors};
ghost use Rattle.check_words.specs.Words.{EitherOf, PartOf, SharedOf, UnionOf};

use crate::combined::{both, either, in_set, out_of, with_set};
use bal_base::Memory;
use descriptors::plain;
use std::alloc::Global;
use type_model::{BasicSet, SemType, Ty, Types};

/// The type with these shapes, without constructor choices.
fn compacted<T: Types>(alloc: Global, types: &mut T, shapes: SemType) -> Result<Ty, Memory>
    requires { IsDefined (T.atoms types.old) shapes }
    ensures atoms { T.atoms types.new ≡ T.atoms types.old }
    ensures defined { IfOk result (TyBelow (length (T.atoms types.old))) }
    ensures is { IfOk result (IsPlain (λ x. In (T.atoms types.old) x shapes) (T.atoms types.old)) }
{
    let sem = types.compact(alloc, &shapes)?;
    Ok(plain(alloc, sem))
}

/// The shapes of the type, and nil.
pub fn optional<T: Types>(alloc: Global, types: &mut T, s: &SemType) -> Result<Ty, Memory>
    requires { IsDefined (T.atoms types.old) s.now }
    ensures atoms { T.atoms types.new ≡ T.atoms types.old }
    ensures defined { IfOk result (TyBelow (length (T.atoms types.old))) }
    ensures is { IfOk result (EitherOf s.now IsNil (T.atoms types.old)) }
{
    let shapes = with_set(alloc, s.copy(alloc)?, BasicSet::Nil)?;
    compacted(alloc, types, shapes)
}

/// The shapes of the type, and all of the set.
pub fn either_of<T: Types>(
    alloc: Global,
    types: &mut T,
    s: &SemType,
    set: BasicSet,
) -> Result<Ty, Memory>
    requires { IsDefined (T.atoms types.old) s.now }
    ensures atoms { T.atoms types.new ≡ T.atoms types.old }
    ensures defined { IfOk result (TyBelow (length (T.atoms types.old))) }
    ensures is { IfOk result (EitherOf s.now (λ x. InBasic x set) (T.atoms types.old)) }
{
    let shapes = with_set(alloc, s.copy(alloc)?, set)?;
    compacted(alloc, types, shapes)
}

/// The shapes of the type that are in the set.
pub fn part_of<T: Types>(
    alloc: Global,
    types: &mut T,
    s: &SemType,
    set: BasicSet,
) -> Result<Ty, Memory>
    requires { IsDefined (T.atoms types.old) s.now }
    ensures atoms { T.atoms types.new ≡ T.atoms types.old }
    ensures defined { IfOk result (TyBelow (length (T.atoms types.old))) }
    ensures is { IfOk result (PartOf s.now (λ x. InBasic x set) (T.atoms types.old)) }
{
    let shapes = in_set(alloc, s.copy(alloc)?, set)?;
    compacted(alloc, types, shapes)
}

/// The shapes of the type that aren't in the set.
pub fn rest_of<T: Types>(
    alloc: Global,
    types: &mut T,
    s: &SemType,
    set: BasicSet,
) -> Result<Ty, Memory>
    requires { IsDefined (T.atoms types.old) s.now }
    ensures atoms { T.atoms types.new ≡ T.atoms types.old }
    ensures defined { IfOk result (TyBelow (length (T.atoms types.old))) }
    ensures is { IfOk result (PartOf s.now (λ x. ¬ InBasic x set) (T.atoms types.old)) }
{
    let shapes = out_of(alloc, s.copy(alloc)?, set)?;
    compacted(alloc, types, shapes)
}

/// The shapes of one of the two types or of both.
pub fn union_of<T: Types>(
    alloc: Global,
    types: &mut T,
    s: &SemType,
    t: &SemType,
) -> Result<Ty, Memory>
    requires left { IsDefined (T.atoms types.old) s.now }
    requires right { IsDefined (T.atoms types.old) t.now }
    ensures atoms { T.atoms types.new ≡ T.atoms types.old }
    ensures defined { IfOk result (TyBelow (length (T.atoms types.old))) }
    ensures is { IfOk result (UnionOf s.now t.now (T.atoms types.old)) }
{
    let shapes = either(alloc, s, t)?;
    compacted(alloc, types, shapes)
}

/// The shapes of both types.
pub fn shared_of<T: Types>(
    alloc: Global,
    types: &mut T,
    s: &SemType,
    t: &SemType,
) -> Result<Ty, Memory>
    requires left { IsDefined (T.atoms types.old) s.now }
    requires right { IsDefined (T.atoms types.old) t.now }
    ensures atoms { T.atoms types.new ≡ T.atoms types.old }
    ensures defined { IfOk result (TyBelow (length (T.atoms types.old))) }
    ensures is { IfOk result (SharedOf s.now t.now (T.atoms types.old)) }
{
    let shapes = both(alloc, s, t)?;
    compacted(alloc, types, shapes)
}

/// The shapes of the first type that aren't nil, and those of the second.
pub fn instead_of_nil<T: Types>(
    alloc: Global,
    types: &mut T,
    s: &SemType,
    t: &SemType,
) -> Result<Ty, Memory>
    requires left { IsDefined (T.atoms types.old) s.now }
    requires right { IsDefined (T.atoms types.old) t.now }
    ensures atoms { T.atoms types.new ≡ T.atoms types.old }
    ensures defined { IfOk result (TyBelow (length (T.atoms types.old))) }
    ensures is { IfOk result (IsPlain (λ x. (In (T.atoms types.old) x s.now × ¬ IsNil x) ⊎ In (T.atoms types.old) x t.now) (T.atoms types.old)) }
{
    let rest = out_of(alloc, s.copy(alloc)?, BasicSet::Nil)?;
    let shapes = either(alloc, &rest, t)?;
    compacted(alloc, types, shapes)
}

/// Nil, and the shapes of the type that are errors.
pub fn nil_or_errors<T: Types>(alloc: Global, types: &mut T, s: &SemType) -> Result<Ty, Memory>
    requires { IsDefined (T.atoms types.old) s.now }
    ensures atoms { T.atoms types.new ≡ T.atoms types.old }
    ensures defined { IfOk result (TyBelow (length (T.atoms types.old))) }
    ensures is { IfOk result (NilOrErrors s.now (T.atoms types.old)) }
{
    let errors = in_set(alloc, s.copy(alloc)?, BasicSet::ErrorAll)?;
    let shapes = with_set(alloc, errors, BasicSet::Nil)?;
    compacted(alloc, types, shapes)
}
