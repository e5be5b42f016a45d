//! Whether there is room for the atoms of a package.
ghost use Rattle.std.specs.Prelude.{◌≡◌, ◌≤◌, Some as Present, length};
ghost use Rattle.bal_base.specs.declared.fault.FaultCode.TheVariants.{AtomLimit};
ghost use Rattle.bal_base.specs.declared.fault.Kept.TheVariants.{Nothing};
ghost use Rattle.bal_base.specs.declared.limits.TheConstants.{MOST_ATOMS as most};
ghost use Rattle.checks.specs.Checks.{Comes};
ghost use Rattle.checks.specs.Questions.{IsFault};
ghost use Rattle.descriptors.specs.Described.{Atoms};
ghost use Rattle.type_builder.specs.AtomPlaces.{package_places as places_of, room_for};

use crate::atom_places::package_places;
use bal_base::{Fault, FaultCode, Kept, MOST_ATOMS, Memory, Place, Stop};
use bal_tree::Package;
use std::alloc::Global;
use type_model::TypeEnv;

/// Whether there is room for the atoms that the definitions of a package need, behind those that are there: else `AtomLimit`, at
/// the first token of the descriptor or the function that needs the first atom too many, in text order.
pub fn check_room(alloc: Global, env: &TypeEnv, package: &Package) -> Result<(), Stop<Fault>>
    ensures { Comes (room_for (places_of «package».now)) env.now result env.now }
{
    match package_places(alloc, package) {
        Ok(asked) => room(env.defs().len(), &asked),
        Err(Memory) => Err(Stop::Memory),
    }
}

/// Room for an atom at each of these places, behind so many others.
#[tactic(auto, unfolding(checks::specs::Checks::Comes, crate::specs::AtomPlaces::room_for))]
pub(crate) fn room(others: usize, asked: &[Place]) -> Result<(), Stop<Fault>>
    requires { others ≤ most }
    ensures { (env : Atoms) → length env ≡ others → Comes (room_for asked.now) env result env }
{
    match asked.get(MOST_ATOMS - others) {
        Some(at) => Err(Stop::Fault(no_room(*at))),
        None => Ok(()),
    }
}

fn no_room(at: Place) -> Fault
    ensures { IsFault AtomLimit (Present at) Nothing result }
{
    Fault {
        code: FaultCode::AtomLimit,
        at: Some(at),
        kept: Kept::Nothing,
    }
}
