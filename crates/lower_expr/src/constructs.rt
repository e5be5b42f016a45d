//! The operations of constructs that evaluate all their operands.
#![tactic(auto, using(crate::proofs::Drafting::drafting))]

ghost use Rattle.std.specs.Prelude.{◌≡◌, ◌-◌, Bool, OnOk};
ghost use Rattle.operations.specs.declared.operation.Operation.TheVariants.{MakeError, MakeFunction, MakeList, MakeMapping, WaitAll};
ghost use Rattle.held_operations.specs.Constructs.{call_operations, library_operations, operations_of, operator_operations, perform_operations, read_operations, start_operations, wait_operations};
ghost use Rattle.lower_model.specs.Making.{all_do};
ghost use Rattle.lower_expr.specs.Drafts.{making_of};
ghost use Rattle.held_operations.specs.Operation.{operation_of};

use crate::draft::Draft;
use bal_base::Memory;
use held_operations::{Op, TestedType};
use operations::{Awaited, LibraryCall};
use typed_tree::{Callee, Operator, PerformForm, Read, SharedTy, StrictForm};

/// The operations of an operator.
pub fn operator<'a>(draft: &mut Draft<'a>, op: Operator) -> Result<(), Memory>
    ensures { OnOk result (making_of draft.new ≡ all_do (operator_operations op) (making_of draft.old)) }
{
    match op {
        Operator::Negate => draft.dos(&[Op::Negate]),
        Operator::Not => draft.dos(&[Op::Not]),
        Operator::Multiply => draft.dos(&[Op::Multiply]),
        Operator::Divide => draft.dos(&[Op::Divide]),
        Operator::Remainder => draft.dos(&[Op::Remainder]),
        Operator::Add => draft.dos(&[Op::Add]),
        Operator::Concat => draft.dos(&[Op::Concat]),
        Operator::Subtract => draft.dos(&[Op::Subtract]),
        Operator::Less => draft.dos(&[Op::Less]),
        Operator::LessEqual => draft.dos(&[Op::LessEqual]),
        Operator::Greater => draft.dos(&[Op::LessEqual, Op::Not]),
        Operator::GreaterEqual => draft.dos(&[Op::Less, Op::Not]),
        Operator::Equal => draft.dos(&[Op::Equal]),
        Operator::NotEqual => draft.dos(&[Op::Equal, Op::Not]),
        Operator::Same => draft.dos(&[Op::Same]),
        Operator::NotSame => draft.dos(&[Op::Same, Op::Not]),
    }
}

/// The operations of a statement that evaluates its operands.
pub fn perform<'a>(draft: &mut Draft<'a>, form: PerformForm) -> Result<(), Memory>
    ensures { OnOk result (making_of draft.new ≡ all_do (perform_operations form) (making_of draft.old)) }
{
    match form {
        PerformForm::SetVariable(m) => draft.dos(&[Op::StoreModule(m)]),
        PerformForm::SetItem => draft.dos(&[Op::SetItem]),
        PerformForm::SetKey => draft.dos(&[Op::SetKey]),
        PerformForm::Ignore | PerformForm::Evaluate => draft.dos(&[Op::Pop]),
        PerformForm::Panic => draft.dos(&[Op::Panic]),
    }
}

/// The operations of a read of a member.
pub fn read<'a>(draft: &mut Draft<'a>, how: &'a Read) -> Result<(), Memory>
    ensures { OnOk result (making_of draft.new ≡ all_do (read_operations how.now) (making_of draft.old)) }
{
    match how {
        Read::Item => draft.dos(&[Op::GetItem]),
        Read::Key => draft.dos(&[Op::GetKey]),
        Read::Char => draft.dos(&[Op::GetChar]),
        Read::Field(name) => draft.dos(&[Op::GetField(name)]),
        Read::OptionalField(name) => draft.dos(&[Op::GetOptional(name)]),
    }
}

/// The list of the arguments behind the fixed ones.
fn rest_list<'a>(count: u64, fixed: u32, atom: u32) -> Op<'a>
    ensures { operation_of result ≡ MakeList atom Bool.false (count - fixed) }
{
    Op::MakeList {
        atom,
        immutable: false,
        count: count.saturating_sub(fixed as u64),
    }
}

/// The operations of a call with so many operands.
fn call<'a>(draft: &mut Draft<'a>, called: Callee, count: u64) -> Result<(), Memory>
    ensures { OnOk result (making_of draft.new ≡ all_do (call_operations called count) (making_of draft.old)) }
{
    match called {
        Callee::Unit {
            unit,
            rest: None,
            ..
        } => draft.dos(&[Op::Call { unit, count }]),
        Callee::Unit {
            unit,
            fixed,
            rest: Some(atom),
        } => {
            let passed = fixed as u64 + 1;
            draft.dos(&[
                rest_list(count, fixed, atom),
                Op::Call {
                    unit,
                    count: passed,
                },
            ])
        }
        Callee::Value => draft.dos(&[Op::CallValue {
            count: count.saturating_sub(1),
        }]),
    }
}

/// The operations of a start with so many operands.
fn start<'a>(draft: &mut Draft<'a>, started: Callee, count: u64) -> Result<(), Memory>
    ensures { OnOk result (making_of draft.new ≡ all_do (start_operations started count) (making_of draft.old)) }
{
    match started {
        Callee::Unit {
            unit,
            rest: None,
            ..
        } => draft.dos(&[Op::Start { unit, count }]),
        Callee::Unit {
            unit,
            fixed,
            rest: Some(atom),
        } => {
            let passed = fixed as u64 + 1;
            draft.dos(&[
                rest_list(count, fixed, atom),
                Op::Start {
                    unit,
                    count: passed,
                },
            ])
        }
        Callee::Value => draft.dos(&[Op::StartValue {
            count: count.saturating_sub(1),
        }]),
    }
}

/// The operations of a call of the library with so many operands.
fn library<'a>(
    draft: &mut Draft<'a>,
    call: LibraryCall,
    atom: Option<u32>,
    cast: &'a Option<SharedTy>,
    count: u64,
) -> Result<(), Memory>
    ensures { OnOk result (making_of draft.new ≡ all_do (library_operations call atom cast.now count) (making_of draft.old)) }
{
    match cast {
        None => draft.dos(&[Op::Library { call, atom, count }]),
        Some(t) => draft.dos(&[Op::Library { call, atom, count }, Op::Cast(t)]),
    }
}

/// The operations of a wait for one of these.
fn wait<'a>(draft: &mut Draft<'a>, names: &'a Awaited) -> Result<(), Memory>
    ensures { OnOk result (making_of draft.new ≡ all_do (wait_operations names.now) (making_of draft.old)) }
{
    match names.as_slice() {
        [Some(worker)] => draft.dos(&[Op::WaitWorker(*worker)]),
        [None] => draft.dos(&[Op::WaitFuture]),
        [] | [_, _, ..] => draft.dos(&[Op::WaitAny(names)]),
    }
}

/// The value of a function's name.
fn named_function<'a>(unit: u32) -> Op<'a>
    ensures { operation_of result ≡ MakeFunction unit 0 }
{
    Op::MakeFunction { unit, count: 0 }
}

fn list<'a>(atom: u32, immutable: bool, count: u64) -> Op<'a>
    ensures { operation_of result ≡ MakeList atom immutable count }
{
    Op::MakeList {
        atom,
        immutable,
        count,
    }
}

fn mapping<'a>(atom: u32, immutable: bool, count: u64) -> Op<'a>
    ensures { operation_of result ≡ MakeMapping atom immutable count }
{
    Op::MakeMapping {
        atom,
        immutable,
        count,
    }
}

fn error<'a>(count: u64) -> Op<'a>
    ensures { operation_of result ≡ MakeError count }
{
    Op::MakeError { count }
}

/// A wait for all of these.
fn wait_all<'a>(atom: u32, awaited: &'a Awaited) -> Op<'a>
    ensures { operation_of result ≡ WaitAll atom awaited.now }
{
    Op::WaitAll { atom, awaited }
}

/// The operations of a construct with so many operands.
pub fn strict<'a>(draft: &mut Draft<'a>, form: &'a StrictForm, count: u64) -> Result<(), Memory>
    ensures { OnOk result (making_of draft.new ≡ all_do (operations_of form.now count) (making_of draft.old)) }
{
    match form {
        StrictForm::Literal(c) | StrictForm::Constant(c) => draft.dos(&[Op::Const(c)]),
        StrictForm::Variable(m) => draft.dos(&[Op::LoadModule(*m)]),
        StrictForm::FunctionName { unit } => draft.dos(&[named_function(*unit)]),
        StrictForm::Operator(op) => operator(draft, *op),
        StrictForm::Is(t) => draft.dos(&[Op::Test(TestedType::Tree(t))]),
        StrictForm::Cast(t) => draft.dos(&[Op::Cast(t)]),
        StrictForm::List { atom, immutable } => draft.dos(&[list(*atom, *immutable, count)]),
        StrictForm::Mapping { atom, immutable } => {
            draft.dos(&[mapping(*atom, *immutable, count / 2)])
        }
        StrictForm::Error => draft.dos(&[error(count.saturating_sub(2) / 2)]),
        StrictForm::Read(how) => read(draft, how),
        StrictForm::Call(called) => call(draft, *called, count),
        StrictForm::Library { call, atom, cast } => library(draft, *call, *atom, cast, count),
        StrictForm::Start(started) => start(draft, *started, count),
        StrictForm::Send(None) | StrictForm::SyncSend(None) => Ok(()),
        StrictForm::Receive(None) | StrictForm::Flush(None) => Ok(()),
        StrictForm::Send(Some(w)) => draft.dos(&[Op::Tick, Op::Send(*w)]),
        StrictForm::SyncSend(Some(w)) => draft.dos(&[Op::Tick, Op::Post(*w), Op::Done(*w)]),
        StrictForm::Receive(Some(w)) => draft.dos(&[Op::Tick, Op::Receive(*w)]),
        StrictForm::Flush(Some(w)) => draft.dos(&[Op::Tick, Op::Flush(*w)]),
        StrictForm::WaitAny(names) => {
            draft.dos(&[Op::Tick])?;
            wait(draft, names)
        }
        StrictForm::WaitAll { atom, awaited } => draft.dos(&[Op::Tick, wait_all(*atom, awaited)]),
    }
}
