//! Code put together.

ghost use Rattle.std.specs.Prelude.{◌≡◌, IfOk, length, map};
ghost use Rattle.std.specs.List.{AllZip};
ghost use Rattle.typed_tree.specs.declared.package.Initialiser.{Initialiser as InitialiserOf};
ghost use Rattle.lower_expr.specs.Drafts.{making_of, step_of};
ghost use Rattle.lower_model.specs.Laying.{Agrees};
ghost use Rattle.lower_model.specs.Making.{place_of};
ghost use Rattle.code_assembly.specs.Copies.{IsSameDef};
ghost use Rattle.code_assembly.specs.Known.{IsMadeOf};
ghost use Rattle.code_assembly.specs.Unit.{IsUnitOf};

use crate::atoms::defs;
use crate::instrs::instrs;
use crate::tables::Tables;
use crate::units::{LaidUnit, param_counts, units};
use bal_base::{AtomList, Memory, Numbers};
use lower_expr::Draft;
use stack_code::{Code, Constants, Instr, Instrs, StackMaps, Unit, Units};
use std::alloc::Global;
use type_model::{AtomDef, AtomDefs, SemType, TypeList};
use typed_tree::{Initialiser, ModuleVariable, TypedPackage};

/// The units and instructions of a code, with what these name.
#[derive(Drop)]
pub struct Made {
    pub units: Vec<Unit>,
    pub tables: Tables,
    pub instrs: Vec<Instr>,
}

/// What is taken from a package as it is.
#[derive(Drop)]
struct Taken {
    atoms: Vec<AtomDef>,
    variables: Vec<SemType>,
    initialisers: Vec<u32>,
}

fn variable_types(alloc: Global, variables: &[ModuleVariable]) -> Result<Vec<SemType>, Memory>
    ensures { IfOk result (λ ts. length ts.items ≡ length variables.now) }
{
    let mut types = Vec::new(alloc);
    for v in variables {
        types.push(v.ty.sem.copy(alloc)?)?;
    }
    Ok(types)
}

fn initialiser_units(alloc: Global, initialisers: &[Initialiser]) -> Result<Vec<u32>, Memory>
    ensures { IfOk result (λ ns. ns.items ≡ map (λ (i : InitialiserOf). i.unit.number) initialisers.now) }
{
    let mut numbers = Vec::new(alloc);
    for i in initialisers {
        numbers.push(i.unit.number)?;
    }
    Ok(numbers)
}

fn take_over(alloc: Global, package: &TypedPackage, atoms: &[AtomDef]) -> Result<Taken, Memory>
    ensures atoms { IfOk result (λ t. AllZip IsSameDef atoms.now t.atoms.items) }
    ensures variables { IfOk result (λ t. length t.variables.items ≡ length «package».now.variables.items) }
    ensures initialisers { IfOk result (λ t. t.initialisers.items ≡ map (λ (i : InitialiserOf). i.unit.number) «package».now.initialisers.items) }
{
    let initialisers = initialiser_units(alloc, &package.initialisers)?;
    let variables = variable_types(alloc, &package.variables)?;
    let atoms = defs(alloc, atoms)?;
    Ok(Taken {
        atoms,
        variables,
        initialisers,
    })
}

fn make(
    alloc: Global,
    draft: &Draft<'_>,
    laid: &[LaidUnit<'_>],
    types: Vec<SemType>,
) -> Result<Made, Memory>
    ensures made { IfOk result (IsMadeOf (making_of draft.now) laid.now) }
    ensures tested { IfOk result (λ x. x.tables.tested.items ≡ types.items) }
{
    if !draft.sound {
        return Err(Memory);
    }
    let params = param_counts(alloc, laid)?;
    let mut tables = Tables {
        constants: Vec::new(alloc),
        tested: types,
        params,
    };
    let instrs = instrs(&mut tables, alloc, &draft.labels, &draft.steps)?;
    let units = units(alloc, laid)?;
    Ok(Made {
        units,
        tables,
        instrs,
    })
}

/// The code of these parts.
fn joined(alloc: Global, taken: Taken, made: Made, package: &TypedPackage) -> Code
    ensures constants { result.constants ≡ made.tables.constants.items }
    ensures tested { result.tested ≡ made.tables.tested.items }
    ensures units { result.units ≡ made.units.items }
    ensures instrs { result.instrs ≡ made.instrs.items }
    ensures atoms { result.atoms ≡ taken.atoms.items }
    ensures variables { result.variables ≡ taken.variables.items }
    ensures initialisers { result.initialisers ≡ taken.initialisers.items }
    ensures start { result.start ≡ «package».now.start }
    ensures words { result.words ≡ «package».now.words }
{
    let Taken {
        atoms,
        variables,
        initialisers,
    } = taken;
    let Made {
        units,
        tables,
        instrs,
    } = made;
    let Tables {
        constants,
        tested,
        ..
    } = tables;
    Code {
        atoms: AtomDefs::of(atoms),
        inherent: AtomList::of(Vec::new(alloc)),
        tested: TypeList::of(tested),
        constants: Constants::of(constants),
        variables: TypeList::of(variables),
        units: Units::of(units),
        initialisers: Numbers::of(initialisers),
        start: package.start,
        words: package.words,
        instrs: Instrs::of(instrs),
        maps: StackMaps::of(Vec::new(alloc)),
    }
}

/// The code of what was made for the units of a package, over these definitions of atoms and with these tested types, in time that
/// grows with the steps and the types of slots and atoms, and for each test and cast with the tested types. Its instructions are those
/// of the steps, one by one. It answers want of memory also where the draft is spoilt, where a label has no place, where a number does
/// not fit 32 bits, where a type is tested that isn't among these, where a call has not as many operands as the unit has parameters, and
/// where a call of the library has an atom and makes no list or makes one without; checked packages have none of these.
pub fn assemble(
    alloc: Global,
    draft: &Draft<'_>,
    laid: &[LaidUnit<'_>],
    package: &TypedPackage,
    atoms: &[AtomDef],
    types: Vec<SemType>,
) -> Result<Code, Memory>
    ensures made { IfOk result (λ code. Agrees code (place_of (making_of draft.now)) (making_of draft.now)) }
    ensures units { IfOk result (λ code. AllZip IsUnitOf laid.now code.units) }
    ensures atoms { IfOk result (λ code. AllZip IsSameDef atoms.now code.atoms) }
    ensures tested { IfOk result (λ code. code.tested ≡ types.items) }
    ensures variables { IfOk result (λ code. length code.variables ≡ length «package».now.variables.items) }
    ensures initialisers { IfOk result (λ code. code.initialisers ≡ map (λ (i : InitialiserOf). i.unit.number) «package».now.initialisers.items) }
    ensures start { IfOk result (λ code. code.start ≡ «package».now.start) }
    ensures words { IfOk result (λ code. code.words ≡ «package».now.words) }
{
    let taken = take_over(alloc, package, atoms)?;
    let made = make(alloc, draft, laid, types)?;
    Ok(joined(alloc, taken, made, package))
}
