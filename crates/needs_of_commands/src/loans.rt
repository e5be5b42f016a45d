//! What the questions of a place name that stands in no code.
ghost use Rattle.std.specs.Option.{option_copied};
ghost use Rattle.std.specs.Prelude.{◌≡◌, ℕ, IfOk, option_map};
ghost use Rattle.stack_code.specs.declared.code.Code.{Code as AnyCode};
ghost use Rattle.stack_code.specs.Places.{stack_at as types_at};
ghost use Rattle.needs_of_commands.specs.Loans.{AreLentAt, AreOf, IsAlways, IsLoanAt};

use crate::counts::operand_count;
use crate::stacks::{instr_at, split_behind, stack_at};
use bal_base::Memory;
use needs_of_places::{Lent, field_key, operand_pairs, own_type};
use pair_questions::Pair;
use stack_code::{Code, Instr};
use std::alloc::Global;
use type_model::{BasicSet, Keys, SemType};

/// What the questions of all places name.
#[derive(Drop)]
pub struct Always {
    /// All indexes of lists.
    pub indexes: Keys,
    /// All keys of mappings.
    pub members: Keys,
    /// All results of futures.
    pub results: Keys,
    /// No shape.
    pub never: SemType,
}

/// What those of one place name.
#[derive(Drop)]
pub struct Loan<'c> {
    /// The atom with which a value is made.
    pub own: SemType,
    /// The key of the field that is read.
    pub field: Keys,
    /// Operands in pairs, where there are as many as the instruction wants.
    pub pairs: Option<Vec<Pair<'c>>>,
}

/// What the questions of all places name.
pub fn always_lent() -> Always
    ensures { IsAlways result }
{
    Always {
        indexes: Keys::AnyIndex,
        members: Keys::AnyField,
        results: Keys::Results,
        never: SemType::Basic(BasicSet::Never),
    }
}

/// What the questions of an instruction name, at this place.
fn loan_of<'c>(alloc: Global, code: &'c Code, place: u32, instr: &Instr) -> Result<Loan<'c>, Memory>
    ensures { IfOk result (λ loan. AreOf code.now (types_at code.now place) loan.own loan.field (option_map (λ v. v.items) loan.pairs) instr.now) }
{
    let types = stack_at(code, place as usize);
    let count = operand_count(code, instr);
    let parts = split_behind(types, count);
    let pairs = operand_pairs(alloc, instr, parts.1)?;
    Ok(Loan {
        own: own_type(code, instr),
        field: field_key(code, instr),
        pairs,
    })
}

/// What the questions name of a place where there is no instruction.
fn no_loan<'c>() -> Loan<'c> {
    Loan {
        own: SemType::Atom(0),
        field: Keys::AnyField,
        pairs: None,
    }
}

/// What the questions of a place name that stands in no code.
pub fn loan_at<'c>(alloc: Global, code: &'c Code, place: u32) -> Result<Loan<'c>, Memory>
    ensures { IfOk result (IsLoanAt code.now place) }
{
    match instr_at(code, place) {
        Some(instr) => loan_of(alloc, code, place, instr),
        None => Ok(no_loan()),
    }
}

/// The pairs, where there are some.
fn pairs_of<'l, 'c: 'l>(pairs: &'l Option<Vec<Pair<'c>>>) -> Option<&'l [Pair<'l>]>
    ensures { option_copied result ≡ option_map (λ v. v.items) pairs.now }
{
    match pairs {
        Some(pairs) => Some(pairs.as_slice()),
        None => None,
    }
}

/// What the questions of a place name, with what those of all places do, for as long as both are kept: what they have of the code may
/// live longer.
pub fn lend<'l, 'c: 'l>(always: &'l Always, loan: &'l Loan<'c>) -> Lent<'l>
    ensures { (code : AnyCode) (place : ℕ) → IsAlways always.now → IsLoanAt code place loan.now → AreLentAt code place result }
{
    Lent {
        indexes: &always.indexes,
        members: &always.members,
        results: &always.results,
        never: &always.never,
        field: &loan.field,
        own: &loan.own,
        pairs: pairs_of(&loan.pairs),
    }
}
