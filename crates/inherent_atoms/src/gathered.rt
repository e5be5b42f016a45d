//! The inherent atoms of a package.
#![tactic(auto, using(crate::proofs::Noting::noting))]

ghost use Rattle.std.specs.Prelude.{◌≡◌, ◌≢◌, ◌↔◌, [], ℕ, AllPairs, Contains, IfOk, map};
ghost use Rattle.op_model.specs.Inherent.{IsInherent};
ghost use Rattle.lower_expr.specs.Drafts.{step_of};
ghost use Rattle.package_units.specs.Held.{tree_of};
ghost use Rattle.inherent_atoms.specs.Found.{AreMarked};
ghost use Rattle.inherent_atoms.specs.Named.{all_named};

use crate::fillers::fill;
use crate::found::Found;
use crate::steps::all;
use bal_base::Memory;
use lower_expr::Step;
use package_units::HeldUnit;
use std::alloc::Global;
use type_model::AtomDef;

/// Nothing was found yet, of so many atoms.
fn nothing(alloc: Global, count: usize) -> Result<Found, Memory>
    ensures marked { IfOk result AreMarked }
    ensures atoms { IfOk result (λ f. f.atoms.items ≡ []) }
{
    let mut marked = Vec::new(alloc);
    for _ in 0..count {
        marked.push(false)?;
    }
    Ok(Found {
        marked,
        atoms: Vec::new(alloc),
    })
}

/// The atoms with which the code of these steps makes structures, functions and futures, each once: those that the steps and the
/// units name, that of main's arguments, and, over these definitions of atoms, those that are the one constructor choice of a
/// member of a list of one of them. The time grows with the steps, the units, and the members of lists of these atoms. It answers
/// want of memory also where an atom that is named has no definition; checked packages have none of these.
pub fn inherent(
    alloc: Global,
    atoms: &[AtomDef],
    units: &[HeldUnit<'_>],
    steps: &[Step<'_>],
    start: u32,
    words: u32,
) -> Result<Vec<u32>, Memory>
    ensures inherent { IfOk result (λ found. (a : ℕ) → Contains found.items a ↔ IsInherent atoms.now (Contains (all_named (map tree_of units.now) (map step_of steps.now) start words)) a) }
    ensures distinct { IfOk result (λ found. AllPairs ◌≢◌ found.items) }
{
    let mut found = nothing(alloc, atoms.len())?;
    all(&mut found, units, steps, start, words)?;
    fill(&mut found, atoms)?;
    let Found { atoms: all, .. } = found;
    Ok(all)
}
