//! Needs of structures that are made.
ghost use Rattle.std.specs.Prelude.{◌≡◌, ◌<◌, IfOk, length};
ghost use Rattle.bal_base.specs.Stops.{IfFault};
ghost use Rattle.type_model.specs.Defined.{IsDefined};
ghost use Rattle.code_needs.specs.Needs.{HasMade};
ghost use Rattle.code_verifier.specs.Asked.{Answers};
ghost use Rattle.code_verifier.specs.LedTo.{AsksAbove, IsMadeType, SomePasses};

use crate::kind_types::in_set;
use bal_base::{Memory, Stop};
use std::alloc::Global;
use type_model::{Answer, BasicSet, SemType, TypeLimit, Types};

/// The structures of an atom, or those of them that are immutable.
fn made_type(alloc: Global, atom: u32, immutable: bool) -> Result<SemType, Memory>
    ensures { IfOk result (IsMadeType atom immutable) }
{
    match immutable {
        true => in_set(alloc, SemType::Atom(atom), BasicSet::Readonly),
        false => Ok(SemType::Atom(atom)),
    }
}

/// Whether all structures of an atom, or all immutable ones, are in a type, which costs one question. `TypeLimit` where it
/// is too large.
pub fn has_made<T: Types>(
    alloc: Global,
    types: &mut T,
    t: &SemType,
    atom: u32,
    immutable: bool,
) -> Result<Answer, Stop<TypeLimit>>
    requires atom { atom < length (T.atoms types.old) }
    requires defined { IsDefined (T.atoms types.old) t.now }
    ensures atoms { T.atoms types.new ≡ T.atoms types.old }
    ensures answers { IfOk result (Answers (T.atoms types.old) (HasMade t.now atom immutable)) }
    ensures limit { IfFault result (SomePasses T.passes (T.atoms types.old) (AsksAbove t.now (IsMadeType atom immutable))) }
{
    match made_type(alloc, atom, immutable) {
        Ok(want) => types.sub(alloc, &want, t),
        Err(Memory) => Err(Stop::Memory),
    }
}
