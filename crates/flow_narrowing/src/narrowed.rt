//! What a test leaves of a type.
ghost use Rattle.std.specs.Prelude.{◌≡◌, IfOk, length};
ghost use Rattle.bal_base.specs.Stops.{IfFault};
ghost use Rattle.descriptors.specs.Described.{HasMeaning};
ghost use Rattle.type_model.specs.Defined.{IsDefined, TyBelow};
ghost use Rattle.type_model.specs.Membership.{In};
ghost use Rattle.flow_narrowing.specs.Asked.{NarrowsBeyond};
ghost use Rattle.flow_narrowing.specs.Belonging.{EachBelongs, Fails, Passes};
ghost use Rattle.flow_narrowing.specs.Narrowed.{WhereFalse, WhereTrue};

use crate::combined::both;
use crate::judging::failing;
use bal_base::{Memory, Stop};
use descriptors::copy_choices;
use std::alloc::Global;
use type_model::{SemType, Ty, TypeLimit, Types};

/// The type of a variable of type `s` where a test for `t` holds: the shapes of both, with the constructor choices of
/// `t`, written anew. It asks nothing. A value that belongs to both belongs to it.
pub fn narrow_true<T: Types>(alloc: Global, types: &mut T, s: &Ty, t: &Ty) -> Result<Ty, Memory>
    requires left { TyBelow (length (T.atoms types.old)) s.now }
    requires right { TyBelow (length (T.atoms types.old)) t.now }
    ensures atoms { T.atoms types.new ≡ T.atoms types.old }
    ensures defined { IfOk result (TyBelow (length (T.atoms types.old))) }
    ensures is { IfOk result (WhereTrue (T.atoms types.old) s.now t.now) }
    ensures belongs { IfOk result (EachBelongs (T.atoms types.old) (Passes s.now t.now)) }
{
    written_of_both(alloc, types, &s.sem, &t.sem, t)
}

/// The type of a variable of type `s` where a test for `t` doesn't hold: the shapes of `s` for which a value may stand
/// that isn't of `t`, with the constructor choices of `s`, written anew. A value that belongs to `s` and not to `t`
/// belongs to it.
///
/// Values that can change stand for many shapes, and so do functions and futures: of these it asks, kind by kind,
/// whether all shapes of `s` are in `t`, four questions at most. `TypeLimit` comes only from one of them.
pub fn narrow_false<T: Types>(
    alloc: Global,
    types: &mut T,
    s: &Ty,
    t: &Ty,
) -> Result<Ty, Stop<TypeLimit>>
    requires left { TyBelow (length (T.atoms types.old)) s.now }
    requires right { TyBelow (length (T.atoms types.old)) t.now }
    ensures atoms { T.atoms types.new ≡ T.atoms types.old }
    ensures defined { IfOk result (TyBelow (length (T.atoms types.old))) }
    ensures is { IfOk result (WhereFalse (T.atoms types.old) s.now t.now) }
    ensures belongs { IfOk result (EachBelongs (T.atoms types.old) (Fails s.now t.now)) }
    ensures limit { IfFault result (NarrowsBeyond T.passes (T.atoms types.old) s.now.sem t.now.sem) }
{
    let failed = failing(alloc, types, &s.sem, &t.sem)?;
    Ok(written_of_both(alloc, types, &s.sem, &failed, s)?)
}

/// The type with the shapes of both, written anew, and the choices of a third one.
fn written_of_both<T: Types>(
    alloc: Global,
    types: &mut T,
    s: &SemType,
    t: &SemType,
    choices: &Ty,
) -> Result<Ty, Memory>
    requires left { IsDefined (T.atoms types.old) s.now }
    requires right { IsDefined (T.atoms types.old) t.now }
    requires choices { TyBelow (length (T.atoms types.old)) choices.now }
    ensures atoms { T.atoms types.new ≡ T.atoms types.old }
    ensures defined { IfOk result (TyBelow (length (T.atoms types.old))) }
    ensures both { IfOk result (HasMeaning (λ x. In (T.atoms types.old) x s.now × In (T.atoms types.old) x t.now) choices.now.lists choices.now.maps (T.atoms types.old)) }
{
    let shapes = both(alloc, s, t)?;
    let sem = types.compact(alloc, &shapes)?;
    with_choices_of(alloc, sem, choices)
}

/// The type with these shapes and the choices of another one.
fn with_choices_of(alloc: Global, sem: SemType, t: &Ty) -> Result<Ty, Memory>
    ensures { IfOk result (λ u. u ≡ record { sem = sem; lists = t.now.lists; maps = t.now.maps }) }
{
    let lists = copy_choices(alloc, &t.lists)?;
    let maps = copy_choices(alloc, &t.maps)?;
    Ok(Ty { sem, lists, maps })
}
