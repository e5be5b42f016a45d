//! Units that can be called as values.
ghost use Rattle.std.specs.Prelude.{◌≡◌, ◌↔◌, ◌<◌, Some as There, All, IfOk, IsTrue, length, slice_get};
ghost use Rattle.stack_code.specs.declared.code.Code.{Code as AnyCode};
ghost use Rattle.stack_code.specs.Places.{IsWorkerUnit};
ghost use Rattle.stack_code.specs.Tables.{IsCallable, IsInherent, IsInitialiser};
ghost use Rattle.callable_units.specs.Calling.{TellsCallable};
ghost use Rattle.callable_units.specs.inner.Marks.{AreMarked, AreOf, IsFree, IsOwnInherent};

use crate::marks::{is_marked, mark_all, mark_crews, unmarked};
use bal_base::Memory;
use stack_code::{Code, Unit};
use std::alloc::Global;

/// What is told of a code's atoms and units.
#[derive(Drop)]
pub(crate) struct Tables {
    /// The atoms that are inherent.
    pub(crate) inherent: Vec<bool>,
    /// The units that are named workers.
    pub(crate) workers: Vec<bool>,
    /// The units that are initialisers.
    pub(crate) initialisers: Vec<bool>,
}

// ---- tables

/// How many atoms there are.
fn atom_count(code: &Code) -> usize
    ensures { result ≡ length code.now.atoms }
{
    code.atoms.as_slice().len()
}

/// How many units there are.
fn unit_count(code: &Code) -> usize
    ensures { result ≡ length code.now.units }
{
    code.units.as_slice().len()
}

/// The atoms of the code that are inherent.
fn inherent_atoms(alloc: Global, code: &Code) -> Result<Vec<bool>, Memory>
    ensures { IfOk result (λ marks. AreMarked (length code.now.atoms) (IsInherent code.now) marks.items) }
{
    let mut marks = unmarked(alloc, atom_count(code))?;
    mark_all(&mut marks, code.inherent.as_slice());
    Ok(marks)
}

/// The units of the code that are named workers.
fn worker_units(alloc: Global, code: &Code) -> Result<Vec<bool>, Memory>
    ensures { IfOk result (λ marks. AreMarked (length code.now.units) (IsWorkerUnit code.now) marks.items) }
{
    let mut marks = unmarked(alloc, unit_count(code))?;
    mark_crews(&mut marks, code.units.as_slice());
    Ok(marks)
}

/// The units of the code that are initialisers.
fn initialiser_units(alloc: Global, code: &Code) -> Result<Vec<bool>, Memory>
    ensures { IfOk result (λ marks. AreMarked (length code.now.units) (IsInitialiser code.now) marks.items) }
{
    let mut marks = unmarked(alloc, unit_count(code))?;
    mark_all(&mut marks, code.initialisers.as_slice());
    Ok(marks)
}

/// All of it.
fn tables_of(alloc: Global, code: &Code) -> Result<Tables, Memory>
    ensures { IfOk result (AreOf code.now) }
{
    let inherent = inherent_atoms(alloc, code)?;
    let workers = worker_units(alloc, code)?;
    let initialisers = initialiser_units(alloc, code)?;
    Ok(Tables {
        inherent,
        workers,
        initialisers,
    })
}

// ---- one unit

/// Whether the atom is inherent.
fn is_inherent(tables: &Tables, atom: u32) -> bool
    ensures { (code : AnyCode) → AreOf code tables.now → All (λ a. a < length code.atoms) code.inherent → IsTrue result ↔ IsInherent code atom }
{
    is_marked(tables.inherent.as_slice(), atom as usize)
}

/// Whether the unit's own arrow atom is inherent.
fn has_arrow(tables: &Tables, unit: &Unit) -> bool
    ensures { (code : AnyCode) → AreOf code tables.now → All (λ a. a < length code.atoms) code.inherent → IsTrue result ↔ IsInherent code unit.now.arrow }
{
    is_inherent(tables, unit.arrow)
}

/// Whether its own future atom is.
fn has_future(tables: &Tables, unit: &Unit) -> bool
    ensures { (code : AnyCode) → AreOf code tables.now → All (λ a. a < length code.atoms) code.inherent → IsTrue result ↔ IsInherent code unit.now.future }
{
    is_inherent(tables, unit.future)
}

/// Whether both are.
fn is_own_inherent(tables: &Tables, unit: &Unit) -> bool
    ensures { (code : AnyCode) → AreOf code tables.now → All (λ a. a < length code.atoms) code.inherent → IsTrue result ↔ IsOwnInherent code unit.now }
{
    has_arrow(tables, unit) && has_future(tables, unit)
}

/// Whether the unit is no named worker.
fn is_no_worker(tables: &Tables, number: usize) -> bool
    ensures { (code : AnyCode) → AreOf code tables.now → number < length code.units → IsTrue result ↔ (¬ (IsWorkerUnit code number)) }
{
    match is_marked(tables.workers.as_slice(), number) {
        true => false,
        false => true,
    }
}

/// Whether the unit is no initialiser.
fn is_no_initialiser(tables: &Tables, number: usize) -> bool
    ensures { (code : AnyCode) → AreOf code tables.now → number < length code.units → IsTrue result ↔ (¬ (IsInitialiser code number)) }
{
    match is_marked(tables.initialisers.as_slice(), number) {
        true => false,
        false => true,
    }
}

/// Neither of both.
fn is_free(tables: &Tables, number: usize) -> bool
    ensures { (code : AnyCode) → AreOf code tables.now → number < length code.units → IsTrue result ↔ IsFree code number }
{
    is_no_worker(tables, number) && is_no_initialiser(tables, number)
}

/// Whether the unit with the number can be called.
fn can_be_called(tables: &Tables, unit: &Unit, number: usize) -> bool
    ensures { (code : AnyCode) → AreOf code tables.now → All (λ a. a < length code.atoms) code.inherent → slice_get code.units number ≡ There unit.now → IsTrue result ↔ IsCallable code number }
{
    is_own_inherent(tables, unit) && is_free(tables, number)
}

/// The rows of all units.
fn rows_by(alloc: Global, tables: &Tables, units: &[Unit]) -> Result<Vec<bool>, Memory>
    ensures { IfOk result (λ rows. (code : AnyCode) → AreOf code tables.now → All (λ a. a < length code.atoms) code.inherent → code.units ≡ units.now → TellsCallable code rows.items) }
{
    let mut rows = Vec::new(alloc);
    for number in 0..units.len() {
        rows.push(can_be_called(tables, &units[number], number))?;
    }
    Ok(rows)
}

/// For each unit of the code, whether function values and futures of it can be called. It grows with the code's units, their workers
/// and its atoms.
pub fn callable_units(alloc: Global, code: &Code) -> Result<Vec<bool>, Memory>
    requires { All (λ a. a < length code.now.atoms) code.now.inherent }
    ensures { IfOk result (λ rows. TellsCallable code.now rows.items) }
{
    let tables = tables_of(alloc, code)?;
    rows_by(alloc, &tables, code.units.as_slice())
}
