//! Questions about a type and a set of shapes, or the shapes of an atom.
ghost use Rattle.std.specs.Prelude.{◌≡◌, ◌<◌, IfOk, length};
ghost use Rattle.bal_base.specs.Stops.{IfFault};
ghost use Rattle.type_model.specs.declared.basic.SemType.{Atom, Basic};
ghost use Rattle.type_model.specs.Calls.{Without};
ghost use Rattle.type_model.specs.Defined.{IsDefined};
ghost use Rattle.code_verifier.specs.Deciding.{DecidesSub};

use bal_base::Stop;
use code_verifier::is_subtype;
use std::alloc::Global;
use type_model::{BasicSet, SemType, TypeLimit, Types};

/// Whether all shapes of the type are in the set.
pub(crate) fn is_within<T: Types>(
    alloc: Global,
    types: &mut T,
    t: &SemType,
    set: BasicSet,
) -> Result<bool, Stop<TypeLimit>>
    requires { IsDefined (T.atoms types.old) t.now }
    ensures atoms { T.atoms types.new ≡ T.atoms types.old }
    ensures answer { IfOk result (DecidesSub (T.atoms types.old) t.now (Basic set)) }
    ensures limit { IfFault result (T.passes (T.atoms types.old) (Without t.now (Basic set))) }
{
    let whole = SemType::Basic(set);
    is_subtype(alloc, types, t, &whole)
}

/// Whether the type has all shapes of the set.
pub(crate) fn has_all<T: Types>(
    alloc: Global,
    types: &mut T,
    t: &SemType,
    set: BasicSet,
) -> Result<bool, Stop<TypeLimit>>
    requires { IsDefined (T.atoms types.old) t.now }
    ensures atoms { T.atoms types.new ≡ T.atoms types.old }
    ensures answer { IfOk result (DecidesSub (T.atoms types.old) (Basic set) t.now) }
    ensures limit { IfFault result (T.passes (T.atoms types.old) (Without (Basic set) t.now)) }
{
    let part = SemType::Basic(set);
    is_subtype(alloc, types, &part, t)
}

/// Whether all shapes of the type are those of the atom.
pub(crate) fn is_within_atom<T: Types>(
    alloc: Global,
    types: &mut T,
    t: &SemType,
    a: u32,
) -> Result<bool, Stop<TypeLimit>>
    requires defined { IsDefined (T.atoms types.old) t.now }
    requires atom { a < length (T.atoms types.old) }
    ensures atoms { T.atoms types.new ≡ T.atoms types.old }
    ensures answer { IfOk result (DecidesSub (T.atoms types.old) t.now (Atom a)) }
    ensures limit { IfFault result (T.passes (T.atoms types.old) (Without t.now (Atom a))) }
{
    let whole = SemType::Atom(a);
    is_subtype(alloc, types, t, &whole)
}

/// Whether the type has all shapes of the atom.
pub(crate) fn has_atom<T: Types>(
    alloc: Global,
    types: &mut T,
    t: &SemType,
    a: u32,
) -> Result<bool, Stop<TypeLimit>>
    requires defined { IsDefined (T.atoms types.old) t.now }
    requires atom { a < length (T.atoms types.old) }
    ensures atoms { T.atoms types.new ≡ T.atoms types.old }
    ensures answer { IfOk result (DecidesSub (T.atoms types.old) (Atom a) t.now) }
    ensures limit { IfFault result (T.passes (T.atoms types.old) (Without (Atom a) t.now)) }
{
    let part = SemType::Atom(a);
    is_subtype(alloc, types, &part, t)
}
