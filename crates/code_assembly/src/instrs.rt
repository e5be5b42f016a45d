//! The instructions of steps.
#![tactic(auto, using(crate::proofs::Stocks::stocks))]

ghost use Rattle.std.specs.Prelude.{◌≡◌, IfOk, OnOk, map};
ghost use Rattle.operations.specs.declared.operation.Operation.TheVariants.{Cast as CastOf, Const as ConstOf, GetField as GetFieldOf, GetOptional as GetOptionalOf, Test as TestOf};
ghost use Rattle.held_operations.specs.Operation.{operation_of, type_of};
ghost use Rattle.lower_expr.specs.Drafts.{step_of};
ghost use Rattle.code_assembly.specs.Known.{stock_of};
ghost use Rattle.code_assembly.specs.Standing.{AllCome, Comes, DoesSo, Grows};

use crate::numbers::place;
use crate::plain::{library, numbered, wait_all, wait_any};
use crate::tables::{Tables, copy};
use bal_base::{Memory, Text};
use held_operations::{Op, TestedType};
use lower_expr::Step;
use operations::Constant;
use stack_code::Instr;
use std::alloc::Global;

impl Tables {
    /// A constant is pushed.
    fn pushes(&mut self, c: Constant) -> Result<Instr, Memory>
        ensures grows { OnOk result (Grows (stock_of self.old) (stock_of self.new)) }
        ensures does { IfOk result (DoesSo (stock_of self.new) (ConstOf c)) }
    {
        Ok(Instr::Const(self.constant(c)?))
    }

    /// A field is read.
    fn field(&mut self, name: &Text) -> Result<Instr, Memory>
        ensures grows { OnOk result (Grows (stock_of self.old) (stock_of self.new)) }
        ensures does { IfOk result (DoesSo (stock_of self.new) (GetFieldOf name.now)) }
    {
        Ok(Instr::GetField(self.name(name)?))
    }

    /// A field is read that may be missing.
    fn optional(&mut self, name: &Text) -> Result<Instr, Memory>
        ensures grows { OnOk result (Grows (stock_of self.old) (stock_of self.new)) }
        ensures does { IfOk result (DoesSo (stock_of self.new) (GetOptionalOf name.now)) }
    {
        Ok(Instr::GetOptional(self.name(name)?))
    }

    /// A test of a type.
    fn test(&self, t: TestedType<'_>) -> Result<Instr, Memory>
        ensures { IfOk result (DoesSo (stock_of self.now) (TestOf (type_of t.entry))) }
    {
        Ok(Instr::Test(self.tested(t)?))
    }

    /// A cast to a type.
    fn cast(&self, t: TestedType<'_>) -> Result<Instr, Memory>
        ensures { IfOk result (DoesSo (stock_of self.now) (CastOf (type_of t.entry))) }
    {
        Ok(Instr::Cast(self.tested(t)?))
    }

    /// The instruction of an operation.
    fn operation(&mut self, alloc: Global, op: Op<'_>) -> Result<Instr, Memory>
        ensures grows { OnOk result (Grows (stock_of self.old) (stock_of self.new)) }
        ensures does { IfOk result (DoesSo (stock_of self.new) (operation_of op.entry)) }
    {
        match op {
            Op::Const(c) => self.pushes(copy(c)),
            Op::Nil => self.pushes(Constant::Nil),
            Op::Truth(b) => self.pushes(Constant::Bool(b)),
            Op::Int(i) => self.pushes(Constant::Int(i)),
            Op::GetField(name) => self.field(name),
            Op::GetOptional(name) => self.optional(name),
            Op::Test(t) => self.test(t),
            Op::Cast(t) => self.cast(TestedType::Tree(t)),
            Op::Call { unit, count } => self.call(unit, count),
            Op::Start { unit, count } => self.start(unit, count),
            Op::Library { call, atom, count } => library(call, atom, count),
            Op::WaitAny(awaited) => wait_any(alloc, awaited),
            Op::WaitAll { atom, awaited } => wait_all(alloc, atom, awaited),
            _ => numbered(op),
        }
    }

    /// The instruction of a step.
    fn instr(
        &mut self,
        alloc: Global,
        labels: &[Option<usize>],
        step: Step<'_>,
    ) -> Result<Instr, Memory>
        ensures grows { OnOk result (Grows (stock_of self.old) (stock_of self.new)) }
        ensures comes { IfOk result (Comes (stock_of self.new) labels.now (step_of step.entry)) }
    {
        match step {
            Step::Do(op) => self.operation(alloc, op),
            Step::Cast(t) => self.cast(t),
            Step::GoTo(l) => Ok(Instr::Jump(place(labels, l)?)),
            Step::GoToIfNot(l) => Ok(Instr::JumpIfNot(place(labels, l)?)),
            Step::OpenTrap(l) => Ok(Instr::Trap(place(labels, l)?)),
            Step::CloseTrap => Ok(Instr::Untrap),
        }
    }
}

/// The instructions of steps, one behind another.
pub fn instrs(
    tables: &mut Tables,
    alloc: Global,
    labels: &[Option<usize>],
    steps: &[Step<'_>],
) -> Result<Vec<Instr>, Memory>
    ensures grows { OnOk result (Grows (stock_of tables.old) (stock_of tables.new)) }
    ensures come { IfOk result (λ is. AllCome (stock_of tables.new) labels.now (map step_of steps.now) is.items) }
{
    let mut instrs = Vec::new(alloc);
    for step in steps {
        instrs.push(tables.instr(alloc, labels, *step)?)?;
    }
    Ok(instrs)
}
