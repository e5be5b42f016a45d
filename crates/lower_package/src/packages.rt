//! The lowering of packages.
#![tactic(auto, using(lower_expr::proofs::Drafting::drafting))]

ghost use Rattle.std.specs.Prelude.{◌≡◌, ◌≢◌, [], All, AllPairs, IfOk, IsSomeAnd, OnOk, length, map, slice_get};
ghost use Rattle.std.specs.List.{AllZip};
ghost use Rattle.bal_base.specs.Stops.{IfFault};
ghost use Rattle.lower_model.specs.Assembled.{bodies_of, made_of};
ghost use Rattle.lower_model.specs.Making.{firsts_made, unit_made, unmade, units_made};
ghost use Rattle.lower_model.specs.Whole.{HasInherentOf, IsLowered};
ghost use Rattle.lower_expr.specs.Drafts.{making_of};
ghost use Rattle.package_units.specs.Held.{tree_of};
ghost use Rattle.code_assembly.specs.declared.units.LaidUnit.{LaidUnit as Laid};
ghost use Rattle.code_assembly.specs.Copies.{IsSameDef};
ghost use Rattle.code_assembly.specs.Unit.{tree_in};
ghost use Rattle.stack_code.specs.Tables.{HasTestedMembers};
ghost use Rattle.tested_types.specs.Asked.{TestsWhatItAsks};
ghost use Rattle.code_maps.specs.Given.{AreMapsOf};
ghost use Rattle.lower_package.specs.Completed.{completed, over};
ghost use Rattle.lower_package.specs.Limits.{IsCodeLimit, IsRefused, PassesNodes};

use bal_base::{AtomList, Fault, FaultCode, Kept, Memory, Stop};
use code_assembly::{LaidUnit, assemble};
use code_maps::maps_of;
use inherent_atoms::inherent;
use lower_expr::Draft;
use lower_stmt::unit;
use package_units::{HeldUnit, units};
use stack_code::{Code, StackMap, StackMaps};
use std::alloc::Global;
use tested_types::tested;
use type_model::{AtomDef, TypeEnv};
use typed_tree::{Plan, TypedPackage, nodes};

/// The most nodes that a package may have.
pub const MOST_NODES: u64 = 1_048_576;

/// The place behind the last step.
fn here(draft: &Draft<'_>) -> Result<u32, Memory>
    ensures { IfOk result (λ p. p ≡ length (making_of draft.now).steps) }
{
    let place = draft.steps.len();
    if place > u32::MAX as usize {
        return Err(Memory);
    }
    Ok(place as u32)
}

/// What a unit adds, and where it stands.
fn lay<'a>(draft: &mut Draft<'a>, held: HeldUnit<'a>) -> Result<LaidUnit<'a>, Memory>
    ensures made { OnOk result (making_of draft.new ≡ unit_made (tree_of held.entry).body (making_of draft.old)) }
    ensures tree { IfOk result (λ l. tree_in l ≡ tree_of held.entry) }
    ensures first { IfOk result (λ l. l.first ≡ length (making_of draft.old).steps) }
{
    let first = here(draft)?;
    unit(draft, held.body)?;
    let end = here(draft)?;
    Ok(LaidUnit { held, first, end })
}

/// What units add, one behind another, and where each stands.
fn lay_all<'a>(
    alloc: Global,
    draft: &mut Draft<'a>,
    us: &[HeldUnit<'a>],
) -> Result<Vec<LaidUnit<'a>>, Memory>
    ensures made { OnOk result (making_of draft.new ≡ units_made (bodies_of (map tree_of us.now)) (making_of draft.old)) }
    ensures trees { IfOk result (λ ls. map tree_in ls.items ≡ map tree_of us.now) }
    ensures firsts { IfOk result (λ ls. map (λ (l : Laid). l.first) ls.items ≡ firsts_made (bodies_of (map tree_of us.now)) (making_of draft.old)) }
{
    let mut laid = Vec::new(alloc);
    for u in us {
        laid.push(lay(draft, *u)?)?;
    }
    Ok(laid)
}

/// Nothing yet.
fn fresh<'a>(alloc: Global) -> Draft<'a>
    ensures { making_of result ≡ unmade }
{
    Draft {
        steps: Vec::new(alloc),
        labels: Vec::new(alloc),
        sound: true,
    }
}

/// The code with these inherent atoms and these maps.
fn complete(mut code: Code, atoms: Vec<u32>, maps: Vec<StackMap>) -> Code
    ensures { result ≡ completed code atoms.items maps.items }
{
    code.inherent = AtomList::of(atoms);
    code.maps = StackMaps::of(maps);
    code
}

/// The code of a package, with these maps.
fn code_of(
    alloc: Global,
    atoms: &[AtomDef],
    package: &TypedPackage,
    given: Vec<StackMap>,
) -> Result<Code, Memory>
    ensures lowered { IfOk result (λ code. IsLowered code.atoms «package».now code) }
    ensures over { IfOk result (λ code. IsLowered atoms.now «package».now (over atoms.now code)) }
    ensures atoms { IfOk result (λ code. AllZip IsSameDef atoms.now code.atoms) }
    ensures inherent { IfOk result (HasInherentOf «package».now) }
    ensures distinct { IfOk result (λ code. AllPairs ◌≢◌ code.inherent) }
    ensures tested { IfOk result TestsWhatItAsks }
    ensures members { IfOk result (λ code. All (λ a. IsSomeAnd (slice_get code.atoms a) (HasTestedMembers code)) code.inherent) }
    ensures maps { IfOk result (λ code. code.maps ≡ given.items) }
{
    let us = units(alloc, package)?;
    let mut draft = fresh(alloc);
    let laid = lay_all(alloc, &mut draft, &us)?;
    let found = inherent(
        alloc,
        atoms,
        &us,
        &draft.steps,
        package.start,
        package.words,
    )?;
    let types = tested(alloc, &draft.steps, atoms, &found)?;
    let code = assemble(alloc, &draft, &laid, package, atoms, types)?;
    Ok(complete(code, found, given))
}

/// The code of a package, over the definitions of its atoms, which have the same numbers there. What may come of the code is what
/// may come of the package, by the laws of `lower_model`. Its inherent atoms are those with which the package makes structures,
/// functions and futures, each once. Its tested types are those of its tests and casts and of members of structures with inherent
/// atoms, each once, as they are written. Its maps are those of the package, over the types of all booleans, all ints and all strings.
/// The package's functions have accepted plans; nothing in instructions depends on these. It is refused with 501 exactly where it has
/// more than [`MOST_NODES`] nodes, and the fault shows how many. It answers want of memory also for trees that no checker gives: where
/// units don't have the numbers from 0 on, where a statement leaves a loop and there is none, where a call has not as many operands as
/// its unit has parameters, and where an atom that is named has no definition; and where the maps would hold more than
/// [`MOST_ENTRIES`](code_maps::MOST_ENTRIES) types and numbers, before anything is made. The time grows with the nodes of the tree, with
/// the types of its slots and atoms, with what the maps hold, and for each test, cast and member with the tested types.
pub fn lower(
    alloc: Global,
    env: &TypeEnv,
    package: &TypedPackage,
    _plans: &[Plan],
) -> Result<Code, Stop<Fault>>
    ensures lowered { IfOk result (λ code. IsLowered code.atoms «package».now code) }
    ensures atoms { IfOk result (λ code. AllZip IsSameDef env.now code.atoms) }
    ensures inherent { IfOk result (HasInherentOf «package».now) }
    ensures distinct { IfOk result (λ code. AllPairs ◌≢◌ code.inherent) }
    ensures tested { IfOk result TestsWhatItAsks }
    ensures members { IfOk result (λ code. All (λ a. IsSomeAnd (slice_get code.atoms a) (HasTestedMembers code)) code.inherent) }
    ensures maps { IfOk result (λ code. AreMapsOf «package».now code.maps) }
    ensures limit { IfFault result (λ fault. PassesNodes «package».now × IsCodeLimit «package».now fault) }
    ensures passes { PassesNodes «package».now → IsRefused result }
{
    within_nodes(package)?;
    let maps = maps_of(alloc, package)?;
    let code = code_of(alloc, env.defs(), package, maps)?;
    Ok(code)
}

/// The same code without maps, which are a verifier's: so it costs neither their time nor their room, and isn't refused for these. It is
/// lowered from the package over the definitions `env` themselves, of which its own are copies. No package is too large for it: who refuses
/// those with more than [`MOST_NODES`] nodes counts them before.
pub fn lower_to_run(alloc: Global, env: &TypeEnv, package: &TypedPackage) -> Result<Code, Memory>
    ensures { IfOk result (λ code. IsLowered env.now «package».now (over env.now code)) }
{
    code_of(alloc, env.defs(), package, Vec::new(alloc))
}

/// Refuses a package that is too large.
fn within_nodes(package: &TypedPackage) -> Result<(), Stop<Fault>>
    ensures limit { IfFault result (λ fault. PassesNodes «package».now × IsCodeLimit «package».now fault) }
    ensures passes { PassesNodes «package».now → IsRefused result }
{
    let count = nodes(package);
    if count > MOST_NODES {
        return Err(Stop::Fault(Fault {
            code: FaultCode::CodeLimit,
            at: None,
            kept: Kept::Count(count),
        }));
    }
    Ok(())
}
