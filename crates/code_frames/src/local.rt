//! How an operation begins in a frame.
#![tactic(auto, using(crate::proofs::Acting::acting))]

ghost use Rattle.std.specs.Prelude.{◌≡◌, ◌≤◌, ◌∷◌, [], IfOk, List, OnOk, Some, slice_get, slice_set, suc, ℕ};
ghost use Rattle.op_model.specs.Local.{Now, acts, constant_value, futures_in, dropped, loaded, pushed, stored, takes as takes_of, twice};
ghost use Rattle.held_operations.specs.Operation.{operation_of};
ghost use Rattle.code_frames.specs.Asking.{HasOperands, Stays, TakesLast, act_of};
ghost use Rattle.code_frames.specs.Frames.{local_of};

use crate::frame::Asked;
use crate::held::Held;
use bal_base::Memory;
use held_operations::Op;
use operations::Constant;
use value_model::Value;

/// The constant as a value.
fn constant(c: &Constant) -> Value
    ensures { result ≡ constant_value c.now }
{
    match c {
        Constant::Nil => Value::Nil,
        Constant::Bool(b) => Value::Bool(*b),
        Constant::Int(i) => Value::Int(*i),
        Constant::Str(t) => Value::Str(t.share()),
    }
}

/// One value more waits.
pub fn push(local: &mut Held, v: Value) -> Result<(), Memory>
    ensures { OnOk result (local_of local.new ≡ pushed (local_of local.old) v) }
{
    local.stack.push(v)?;
    Ok(())
}

/// What is kept, again.
fn again(kept: &Option<Value>) -> Option<Value>
    ensures { result ≡ kept.now }
{
    match kept {
        Some(v) => Some(v.share()),
        None => None,
    }
}

/// What is in the slot, where there is one.
pub(crate) fn in_slot(slots: &[Option<Value>], slot: u64) -> Option<Option<Value>>
    ensures { result ≡ slice_get slots.now slot }
{
    match slots.get(slot as usize) {
        Some(kept) => Some(again(kept)),
        None => None,
    }
}

/// A slot is loaded: where it was never stored, that is an operation without operands.
pub fn load<'a>(slot: u64, local: &mut Held) -> Result<Asked<'a>, Memory>
    ensures begins { IfOk result (λ a. (slots : List ℕ) → loaded (local_of local.old) slot (slice_get (local_of local.old).slots slot) ≡ act_of slots a (local_of local.new)) }
    ensures stays { IfOk result (λ a. Stays a (local_of local.old) (local_of local.new)) }
    ensures enough { IfOk result (λ a. HasOperands a local.new) }
{
    match in_slot(local.slots.as_slice(), slot) {
        None => Ok(Asked::Stuck),
        Some(kept) => match kept {
            None => Ok(Asked::Does(Op::Load(slot), 0)),
            Some(v) => gives(local, v),
        },
    }
}

/// The last value is taken off.
pub(crate) fn take_last(stack: &mut Vec<Value>) -> Option<Value>
    ensures { TakesLast result stack.old.items stack.new.items }
{
    stack.pop()
}

fn set_slot(slots: &mut Vec<Option<Value>>, slot: u64, v: Value)
    ensures { slots.new.items ≡ slice_set slots.old.items slot (Some v) }
{
    if let Some(kept) = slots.get_mut(slot as usize) {
        *kept = Some(v);
    }
}

/// The last value goes into a slot.
pub fn store<'a>(slot: u64, local: &mut Held) -> Asked<'a>
    ensures begins { (slots : List ℕ) → stored (local_of local.old) slot (local_of local.old).stack ≡ act_of slots result (local_of local.new) }
    ensures stays { Stays result (local_of local.old) (local_of local.new) }
    ensures enough { HasOperands result local.new }
{
    match take_last(&mut local.stack) {
        None => Asked::Stuck,
        Some(v) => {
            set_slot(&mut local.slots, slot, v);
            Asked::On
        }
    }
}

/// The last value is dropped.
fn drop_last<'a>(local: &mut Held) -> Asked<'a>
    ensures begins { (slots : List ℕ) → dropped (local_of local.old) (local_of local.old).stack ≡ act_of slots result (local_of local.new) }
    ensures stays { Stays result (local_of local.old) (local_of local.new) }
    ensures enough { HasOperands result local.new }
{
    match take_last(&mut local.stack) {
        None => Asked::Stuck,
        Some(_) => Asked::On,
    }
}

/// The value waits from now on.
fn gives<'a>(local: &mut Held, v: Value) -> Result<Asked<'a>, Memory>
    ensures begins { IfOk result (λ a. (slots : List ℕ) → Now (pushed (local_of local.old) v) ≡ act_of slots a (local_of local.new)) }
    ensures stays { IfOk result (λ a. Stays a (local_of local.old) (local_of local.new)) }
    ensures enough { IfOk result (λ a. HasOperands a local.new) }
{
    push(local, v)?;
    Ok(Asked::On)
}

/// An operation on so many operands.
fn takes<'a>(op: Op<'a>, count: u64, local: &Held) -> Asked<'a>
    ensures begins { (slots : List ℕ) → takes_of (operation_of op.entry) (local_of local.now) count ≡ act_of slots result (local_of local.now) }
    ensures enough { HasOperands result local.now }
{
    if count > local.stack.len() as u64 {
        return Asked::Stuck;
    }
    Asked::Does(op, count as usize)
}

/// One operand, and so many behind it.
fn takes_one_more<'a>(op: Op<'a>, count: u64, local: &Held) -> Asked<'a>
    ensures begins { (slots : List ℕ) → takes_of (operation_of op.entry) (local_of local.now) (suc count) ≡ act_of slots result (local_of local.now) }
    ensures enough { HasOperands result local.now }
{
    if count > local.stack.len() as u64 {
        return Asked::Stuck;
    }
    takes(op, count + 1, local)
}

/// So many pairs of operands.
fn takes_pairs<'a>(op: Op<'a>, count: u64, local: &Held) -> Asked<'a>
    ensures begins { (slots : List ℕ) → takes_of (operation_of op.entry) (local_of local.now) (twice count) ≡ act_of slots result (local_of local.now) }
    ensures enough { HasOperands result local.now }
{
    if count > local.stack.len() as u64 / 2 {
        return Asked::Stuck;
    }
    takes(op, count * 2, local)
}

/// Two operands, and so many pairs behind them.
fn takes_two_and_pairs<'a>(op: Op<'a>, count: u64, local: &Held) -> Asked<'a>
    ensures begins { (slots : List ℕ) → takes_of (operation_of op.entry) (local_of local.now) (suc (suc (twice count))) ≡ act_of slots result (local_of local.now) }
    ensures enough { HasOperands result local.now }
{
    if count > local.stack.len() as u64 / 2 {
        return Asked::Stuck;
    }
    takes(op, count * 2 + 2, local)
}

/// One, where the name is a future.
fn counted(name: &Option<u32>) -> u64
    ensures count { result ≡ futures_in (name.now ∷ []) }
    ensures most { result ≤ 1 }
{
    match name {
        Some(_) => 0,
        None => 1,
    }
}

/// How many of the names are futures.
fn futures(names: &[Option<u32>]) -> u64
    ensures { result ≡ futures_in names.now }
{
    let mut count = 0;
    for name in names {
        count += counted(name);
    }
    count
}

/// How an operation begins. The start of named workers takes what they capture, and nothing off the stack.
pub fn act<'a>(op: Op<'a>, local: &mut Held) -> Result<Asked<'a>, Memory>
    ensures begins { IfOk result (λ a. (slots : List ℕ) → acts slots (operation_of op.entry) (local_of local.old) ≡ act_of slots a (local_of local.new)) }
    ensures stays { IfOk result (λ a. Stays a (local_of local.old) (local_of local.new)) }
    ensures enough { IfOk result (λ a. HasOperands a local.new) }
{
    match op {
        Op::Const(c) => gives(local, constant(c)),
        Op::Nil => gives(local, Value::Nil),
        Op::Truth(b) => gives(local, Value::Bool(b)),
        Op::Int(i) => gives(local, Value::Int(i)),
        Op::Load(slot) => load(slot, local),
        Op::Store(slot) => Ok(store(slot, local)),
        Op::Pop => Ok(drop_last(local)),
        Op::Workers => Ok(Asked::Captures),
        Op::LoadModule(_) | Op::Tick | Op::WaitWorker(_) => Ok(takes(op, 0, local)),
        Op::Done(_) | Op::Receive(_) | Op::Flush(_) => Ok(takes(op, 0, local)),
        Op::StoreModule(_) | Op::Negate | Op::Not | Op::Test(_) | Op::Cast(_) => Ok(takes(
            op, 1, local,
        )),
        Op::GetField(_) | Op::GetOptional(_) | Op::Return | Op::Panic => Ok(takes(op, 1, local)),
        Op::Send(_) | Op::Post(_) | Op::WaitFuture => Ok(takes(op, 1, local)),
        Op::Add | Op::Subtract | Op::Multiply | Op::Divide => Ok(takes(op, 2, local)),
        Op::Remainder | Op::Concat | Op::Less | Op::LessEqual => Ok(takes(op, 2, local)),
        Op::Equal | Op::Same | Op::GetItem | Op::GetKey | Op::GetChar => Ok(takes(op, 2, local)),
        Op::SetItem | Op::SetKey => Ok(takes(op, 3, local)),
        Op::MakeList { count, .. } | Op::MakeFunction { count, .. } => Ok(takes(op, count, local)),
        Op::Call { count, .. } | Op::Start { count, .. } => Ok(takes(op, count, local)),
        Op::Library { count, .. } => Ok(takes(op, count, local)),
        Op::MakeMapping { count, .. } => Ok(takes_pairs(op, count, local)),
        Op::MakeError { count } => Ok(takes_two_and_pairs(op, count, local)),
        Op::CallValue { count } | Op::StartValue { count } => Ok(takes_one_more(op, count, local)),
        Op::WaitAny(names) => Ok(takes(op, futures(names.as_slice()), local)),
        Op::WaitAll { awaited, .. } => Ok(takes(op, futures(awaited.as_slice()), local)),
    }
}
