//! The tables of a code in the making.
#![tactic(auto, using(crate::proofs::Stocks::stocks))]

ghost use Rattle.std.specs.Prelude.{◌≡◌, IfOk, OnOk, Some, slice_get};
ghost use Rattle.operations.specs.declared.operation.Constant.TheVariants.{Str};
ghost use Rattle.operations.specs.declared.operation.Operation.TheVariants.{Call as CallOf, Start as StartOf};
ghost use Rattle.held_operations.specs.Operation.{type_of};
ghost use Rattle.code_assembly.specs.Known.{stock_of};
ghost use Rattle.code_assembly.specs.Standing.{DoesSo, Grows, HasSame};

use crate::numbers::narrow_length;
use bal_base::{Memory, Text};
use held_operations::TestedType;
use operations::Constant;
use stack_code::Instr;
use std::alloc::Global;
use tested_types::place_of;
use type_model::SemType;

/// What instructions name by numbers.
#[derive(Drop)]
pub struct Tables {
    pub constants: Vec<Constant>,
    /// The types of tests and casts.
    pub tested: Vec<SemType>,
    /// How many parameters each unit has.
    pub params: Vec<u32>,
}

/// A copy of the constant, which shares its text. Takes no memory.
pub fn copy(c: &Constant) -> Constant
    ensures { result ≡ c.now }
{
    match c {
        Constant::Nil => Constant::Nil,
        Constant::Bool(b) => Constant::Bool(*b),
        Constant::Int(i) => Constant::Int(*i),
        Constant::Str(text) => Constant::Str(text.share()),
    }
}

impl Tables {
    /// The number of a constant.
    pub fn constant(&mut self, c: Constant) -> Result<u32, Memory>
        ensures grows { OnOk result (Grows (stock_of self.old) (stock_of self.new)) }
        ensures there { IfOk result (λ n. slice_get self.new.constants.items n ≡ Some c) }
    {
        let number = narrow_length(self.constants.len())?;
        self.constants.push(c)?;
        Ok(number)
    }

    /// The number of a name, which is a constant too.
    pub fn name(&mut self, name: &Text) -> Result<u32, Memory>
        ensures grows { OnOk result (Grows (stock_of self.old) (stock_of self.new)) }
        ensures there { IfOk result (λ n. slice_get self.new.constants.items n ≡ Some (Str name.now)) }
    {
        self.constant(Constant::Str(name.share()))
    }

    /// The number of a tested type. It answers want of memory also where the type isn't there.
    pub fn tested(&self, t: TestedType<'_>) -> Result<u32, Memory>
        ensures { IfOk result (HasSame (stock_of self.now) (type_of t.entry)) }
    {
        match place_of(&self.tested, t) {
            Some(place) => narrow_length(place),
            None => Err(Memory),
        }
    }

    /// The unit has so many parameters.
    fn takes(&self, unit: u32, count: u64) -> Result<(), Memory>
        ensures { OnOk result (slice_get self.now.params.items unit ≡ Some count) }
    {
        match self.params.get(unit as usize) {
            Some(params) => {
                if *params as u64 == count {
                    Ok(())
                } else {
                    Err(Memory)
                }
            }
            None => Err(Memory),
        }
    }

    /// The call of a unit with so many operands, which are as many as it has parameters.
    pub fn call(&self, unit: u32, count: u64) -> Result<Instr, Memory>
        ensures { IfOk result (DoesSo (stock_of self.now) (CallOf unit count)) }
    {
        self.takes(unit, count)?;
        Ok(Instr::Call(unit))
    }

    /// The start of a unit with so many operands, which are as many as it has parameters.
    pub fn start(&self, unit: u32, count: u64) -> Result<Instr, Memory>
        ensures { IfOk result (DoesSo (stock_of self.now) (StartOf unit count)) }
    {
        self.takes(unit, count)?;
        Ok(Instr::StartCall(unit))
    }
}
