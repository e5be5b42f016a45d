//! Whether what is made at a place can be called.
ghost use Rattle.std.specs.Prelude.{◌≡◌, ◌↔◌, false, All, IsTrue, get_or, option_to_list};
ghost use Rattle.stack_code.specs.declared.code.Code.{Code as AnyCode};
ghost use Rattle.stack_code.specs.Tables.{IsCallable};
ghost use Rattle.callable_units.specs.Calling.{TellsCallable};
ghost use Rattle.unit_checks.specs.Calling.{TellsMade};
ghost use Rattle.unit_checks.specs.inner.Valued.{valued_so};

use needs_of_commands::instr_at;
use stack_code::{Code, Instr};

/// The unit of which the instruction makes a function value or a future.
fn valued(instr: &Instr) -> Option<u32>
    ensures { option_to_list result ≡ valued_so instr.now }
{
    match instr {
        Instr::MakeFunction { unit, .. } => Some(*unit),
        Instr::StartCall(unit) => Some(*unit),
        _ => None,
    }
}

/// The row of the unit, and no where there is none.
fn row_of(rows: &[bool], unit: u32) -> bool
    ensures { result ≡ get_or rows.now unit false }
{
    match rows.get(unit as usize) {
        Some(row) => *row,
        None => false,
    }
}

/// Whether the unit can be called, where there is one.
fn all_callable(rows: &[bool], unit: Option<u32>) -> bool
    ensures { (code : AnyCode) → TellsCallable code rows.now → IsTrue result ↔ All (IsCallable code) (option_to_list unit) }
{
    match unit {
        Some(unit) => row_of(rows, unit),
        None => true,
    }
}

/// Whether that can be called of which the instruction makes a value.
fn are_callable(rows: &[bool], instr: &Instr) -> bool
    ensures { (code : AnyCode) → TellsCallable code rows.now → IsTrue result ↔ All (IsCallable code) (valued_so instr.now) }
{
    all_callable(rows, valued(instr))
}

/// The same at a place, where all that its instruction names in the tables is there.
pub(crate) fn made_callable(rows: &[bool], code: &Code, place: u32) -> bool
    requires { TellsCallable code.now rows.now }
    ensures { TellsMade code.now place result }
{
    match instr_at(code, place) {
        Some(instr) => are_callable(rows, instr),
        None => false,
    }
}
