//! The last call of the running strand, where it stands.
#![tactic(auto, using(crate::proofs::Calling::calling))]

ghost use Rattle.std.specs.Prelude.{◌≡◌, ◌∷◌, [], IfOk, IfSome, OnOk, option_to_list};
ghost use Rattle.plain_run.specs.Effects as effects;
ghost use Rattle.code_steps.specs.inner.Lasts.{EnoughLast, EntersLast, IsBegunFor, IsDoneFor, LooksLast, awaiting_last, given_last, values_last};
ghost use Rattle.code_steps.specs.States.{calls_of};

use crate::begins::begin_in;
use crate::calls::push;
use crate::held::{Call, State};
use bal_base::Memory;
use code_frames::{Asked, Held, Program, look, operands, resume, taken};
use held_operations::Op;
use plain_operations::perform;
use plain_run::{Caller, Performed};
use std::alloc::Global;
use value_model::Value;

/// What the last call is about to do. It can do nothing where there is none.
pub(crate) fn look_last<'a>(
    alloc: Global,
    program: &Program<'a>,
    calls: &mut Vec<Call>,
) -> Result<Asked<'a>, Memory>
    ensures { IfOk result (λ a. LooksLast program.now a (calls_of calls.old.items) (calls_of calls.new.items)) }
{
    match calls.last_mut() {
        None => Ok(Asked::Stuck),
        Some(call) => look(alloc, program.steps.as_slice(), &mut call.frame),
    }
}

/// The operation is done for the last call, on so many values that wait in it.
pub(crate) fn ask_last<'a>(
    alloc: Global,
    program: &Program<'a>,
    op: Op<'a>,
    count: usize,
    state: &mut State,
) -> Result<Performed, Memory>
    requires { EnoughLast count (calls_of state.old.calls.items) }
    ensures row { IfOk result (λ done. IsDoneFor program.now op.entry count (calls_of state.old.calls.items) state.old.common state.new.common done) }
    ensures stays { IfOk result (effects.Stays state.old.common state.new.common) }
    ensures calls { OnOk result (state.new.calls ≡ state.old.calls) }
    ensures others { OnOk result (state.new.others ≡ state.old.others) }
{
    let depth = state.calls.len() as u64;
    match state.calls.last() {
        None => Ok(Performed::Stuck),
        Some(call) => {
            let caller = Caller {
                unit: call.unit,
                role: call.role,
                depth,
            };
            let values = operands(&call.frame, count);
            perform(
                alloc,
                &program.facts,
                op,
                values,
                &caller,
                &mut state.common,
            )
        }
    }
}

/// The last call is given this for an operation on so many values, and goes on.
pub(crate) fn gives_last(
    count: usize,
    given: Option<Value>,
    calls: &mut Vec<Call>,
) -> Result<(), Memory>
    requires { EnoughLast count (calls_of calls.old.items) }
    ensures { OnOk result (calls_of calls.new.items ≡ given_last count (option_to_list given) (calls_of calls.old.items)) }
{
    match calls.last_mut() {
        None => Ok(()),
        Some(call) => {
            taken(&mut call.frame, count)?;
            resume(&mut call.frame, given)
        }
    }
}

/// So many values that wait in the last call are gone, and it stands at the next place.
fn awaits_last(count: usize, calls: &mut Vec<Call>) -> Result<(), Memory>
    requires { EnoughLast count (calls_of calls.old.items) }
    ensures { OnOk result (calls_of calls.new.items ≡ awaiting_last count (calls_of calls.old.items)) }
{
    match calls.last_mut() {
        None => Ok(()),
        Some(call) => taken(&mut call.frame, count),
    }
}

/// The first frame of a call of the unit with so many values that wait in the last call, where there is such a unit.
fn begin_last<'a>(
    alloc: Global,
    program: &Program<'a>,
    unit: u32,
    count: usize,
    spare: Option<Held>,
    calls: &Vec<Call>,
) -> Result<Option<Call>, Memory>
    requires { EnoughLast count (calls_of calls.now.items) }
    ensures { IfOk result (IsBegunFor program.now unit count (calls_of calls.now.items)) }
{
    match calls.last() {
        None => Ok(None),
        Some(call) => begin_in(alloc, program, unit, operands(&call.frame, count), spare),
    }
}

/// The unit is called with so many values that wait in the last call, where there is such a unit.
pub(crate) fn enters_last<'a>(
    alloc: Global,
    program: &Program<'a>,
    unit: u32,
    count: usize,
    spare: Option<Held>,
    calls: &mut Vec<Call>,
) -> Result<bool, Memory>
    requires { EnoughLast count (calls_of calls.old.items) }
    ensures { IfOk result (λ there. EntersLast program.now unit count (calls_of calls.old.items) there (calls_of calls.new.items)) }
{
    match begin_last(alloc, program, unit, count, spare, calls)? {
        None => Ok(false),
        Some(called) => {
            awaits_last(count, calls)?;
            push(calls, called)?;
            Ok(true)
        }
    }
}

/// The value that waits in the last call, where there is one that it asks with.
pub(crate) fn value_last(count: usize, calls: &Vec<Call>) -> Option<Value>
    requires { EnoughLast count (calls_of calls.now.items) }
    ensures { IfSome result (λ v. values_last count (calls_of calls.now.items) ≡ v ∷ []) }
{
    match calls.last() {
        None => None,
        Some(call) => only(operands(&call.frame, count)),
    }
}

/// The value, where it is one.
fn only(values: &[Value]) -> Option<Value>
    ensures { IfSome result (λ v. values.now ≡ v ∷ []) }
{
    match values {
        [v] => Some(v.share()),
        _ => None,
    }
}
