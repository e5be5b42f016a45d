//! What is lent to the questions of an instruction.
ghost use Rattle.std.specs.Option.{option_copied};
ghost use Rattle.std.specs.Prelude.{◌≡◌, IfOk, Some, drop, option_map};
ghost use Rattle.type_model.specs.declared.basic.SemType.{Atom};
ghost use Rattle.needs_of_rows.specs.PairsTaken.{TakesPairs};
ghost use Rattle.needs_of_places.specs.Lending.{ArePairsOf, IsFieldKey, IsFieldOf, own_atom, own_of};

use crate::named::{constant_at, unit_at};
use bal_base::Memory;
use needs_of_rows::pairs_in;
use operations::Constant;
use pair_questions::Pair;
use stack_code::{Code, Instr, Unit};
use std::alloc::Global;
use type_model::{Keys, SemType};

/// The arrow atom of the unit, and 0 where there is none.
fn arrow_of(unit: Option<&Unit>) -> u32
    ensures { result ≡ own_of (λ u. u.arrow) (option_copied unit.entry) }
{
    match unit {
        Some(u) => u.arrow,
        None => 0,
    }
}

/// The future atom of the unit, and 0 where there is none.
fn future_of(unit: Option<&Unit>) -> u32
    ensures { result ≡ own_of (λ u. u.future) (option_copied unit.entry) }
{
    match unit {
        Some(u) => u.future,
        None => 0,
    }
}

/// The type of the function, the future, the list or the mapping that an instruction makes, where its row doesn't name it itself.
pub fn own_type(code: &Code, instr: &Instr) -> SemType
    ensures { result ≡ Atom (own_atom code.now instr.now) }
{
    match instr {
        Instr::MakeFunction { unit, .. } => SemType::Atom(arrow_of(unit_at(code, *unit))),
        Instr::StartCall(unit) => SemType::Atom(future_of(unit_at(code, *unit))),
        Instr::Native { atom, .. } => SemType::Atom(*atom),
        Instr::WaitAll { atom, .. } => SemType::Atom(*atom),
        _ => SemType::Atom(0),
    }
}

/// The key of this name, where the constant is one; all keys else.
fn key_of(name: &Constant) -> Keys
    ensures { IsFieldKey (Some name.now) result }
{
    match name {
        Constant::Str(text) => Keys::Field(text.share()),
        Constant::Nil => Keys::AnyField,
        Constant::Bool(_) => Keys::AnyField,
        Constant::Int(_) => Keys::AnyField,
    }
}

/// The same, where the constant is there.
fn named_key(name: Option<&Constant>) -> Keys
    ensures { IsFieldKey (option_copied name.entry) result }
{
    match name {
        Some(name) => key_of(name),
        None => Keys::AnyField,
    }
}

/// The key of the field that an instruction reads.
pub fn field_key(code: &Code, instr: &Instr) -> Keys
    ensures { IsFieldOf code.now instr.now result }
{
    match instr {
        Instr::GetField(number) => named_key(constant_at(code, *number)),
        Instr::GetOptional(number) => named_key(constant_at(code, *number)),
        _ => Keys::AnyField,
    }
}

/// The pairs behind two operands.
fn pairs_behind<'c>(
    alloc: Global,
    operands: &'c [SemType],
    count: u32,
) -> Result<Option<Vec<Pair<'c>>>, Memory>
    ensures { IfOk result (λ pairs. TakesPairs count (drop 2 operands.now) (option_map (λ v. v.items) pairs)) }
{
    let from = operands.len().min(2);
    pairs_in(alloc, &operands[from..], count)
}

/// The operands of an instruction in pairs, where they are as many as it wants.
pub fn operand_pairs<'c>(
    alloc: Global,
    instr: &Instr,
    operands: &'c [SemType],
) -> Result<Option<Vec<Pair<'c>>>, Memory>
    ensures { IfOk result (λ pairs. ArePairsOf instr.now operands.now (option_map (λ v. v.items) pairs)) }
{
    match instr {
        Instr::MakeMap { count, .. } => pairs_in(alloc, operands, *count),
        Instr::MakeError { count } => pairs_behind(alloc, operands, *count),
        _ => Ok(None),
    }
}
