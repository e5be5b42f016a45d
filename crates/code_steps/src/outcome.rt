//! What comes of a run.
#![tactic(auto, using(crate::proofs::Endings::endings))]

ghost use Rattle.std.specs.Prelude.{◌≡◌, IfOk, None, Some, option_map, slice_get};
ghost use Rattle.value_model.specs.declared.value.Value.TheVariants.{Error};
ghost use Rattle.op_model.specs.Common as model;
ghost use Rattle.op_model.specs.Strands.{end_of as end_of_strand};
ghost use Rattle.plain_run.specs.Held.{common_of, end_of};
ghost use Rattle.code_steps.specs.Ended.{IsEndingOf, IsMainEnding, IsOutcome, stop_of};

use crate::halts::Halt;
use crate::stalls::{Way, follow};
use bal_base::{LimitKind, Memory, Text};
use plain_run::{Common, End, strand_end};
use std::alloc::Global;
use value_model::Value;

/// How a run ends.
#[derive(Drop)]
pub enum Ending {
    ReturnsNil,
    /// `main`, or an initialiser, returned an error with this message.
    ReturnsError(Text),
    /// Strand 0 ended by a panic with this message.
    Panics(Text),
    /// Strand 0 has not ended, and no strand is ready: each of these waits for the next, and the last one for the first.
    Stalls(Vec<u64>),
    /// All ticks are spent, and the next step needs one.
    GoesOn,
    /// The next step would pass a limit.
    Passes(LimitKind),
}

/// What comes of a run.
#[derive(Drop)]
pub struct Outcome {
    pub ending: Ending,
    pub output: Vec<u8>,
    /// What of the input was not read.
    pub rest: Vec<u8>,
    /// How many ticks were spent, and how many picks made.
    pub spent: u64,
    pub picks: u64,
}

/// The message of the error with this number.
fn message(common: &Common, n: u32) -> Option<Text>
    ensures { result ≡ option_map (λ e. e.message) (slice_get (common_of common.now).world.heap.errors n) }
{
    match common.world.heap.errors.get(n as usize) {
        None => None,
        Some(e) => Some(e.message.share()),
    }
}

/// Strand 0 returned an error.
fn error_returned(common: &Common, n: u32) -> Option<Ending>
    ensures { IsMainEnding (common_of common.now) (Some (model.Returned (Error n))) result }
{
    match message(common, n) {
        None => None,
        Some(message) => Some(Ending::ReturnsError(message)),
    }
}

/// Strand 0 returned this.
fn returned(common: &Common, v: &Value) -> Option<Ending>
    ensures { IsMainEnding (common_of common.now) (Some (model.Returned v.now)) result }
{
    match v {
        Value::Nil => Some(Ending::ReturnsNil),
        Value::Error(n) => error_returned(common, *n),
        Value::Bool(_) | Value::Int(_) | Value::Str(_) => None,
        Value::Struct(_) | Value::Function(_) | Value::Future { .. } => None,
    }
}

/// Strand 0 ended with a panic of an error.
fn error_panicked(common: &Common, n: u32) -> Option<Ending>
    ensures { IsMainEnding (common_of common.now) (Some (model.Panicked (Error n))) result }
{
    match message(common, n) {
        None => None,
        Some(message) => Some(Ending::Panics(message)),
    }
}

/// Strand 0 ended with a panic.
fn panicked(common: &Common, e: &Value) -> Option<Ending>
    ensures { IsMainEnding (common_of common.now) (Some (model.Panicked e.now)) result }
{
    match e {
        Value::Error(n) => error_panicked(common, *n),
        Value::Nil | Value::Bool(_) | Value::Int(_) | Value::Str(_) => None,
        Value::Struct(_) | Value::Function(_) | Value::Future { .. } => None,
    }
}

/// Strand 0 ended so.
fn main_ending(common: &Common, end: &End) -> Option<Ending>
    ensures { IsMainEnding (common_of common.now) (Some (end_of end.now)) result }
{
    match end {
        End::Returned(v) => returned(common, v),
        End::Panicked(e) => panicked(common, e),
    }
}

/// No strand is ready, and strand 0 has not ended.
fn stalled(alloc: Global, common: &Common) -> Result<Option<Ending>, Memory>
    ensures { IfOk result (λ e. IsMainEnding (common_of common.now) None e) }
{
    match follow(alloc, common)? {
        Way::Stops => Ok(None),
        Way::Returns(ring) => Ok(Some(Ending::Stalls(ring))),
    }
}

/// No strand is ready.
fn over(alloc: Global, common: &Common) -> Result<Option<Ending>, Memory>
    ensures { IfOk result (λ e. IsMainEnding (common_of common.now) (end_of_strand (common_of common.now) 0) e) }
{
    match strand_end(common, 0) {
        Some(end) => Ok(main_ending(common, end)),
        None => stalled(alloc, common),
    }
}

/// How the run ends that stops so, where it ends in a way that has a name.
fn how_ended(alloc: Global, common: &Common, halt: Halt) -> Result<Option<Ending>, Memory>
    ensures { IfOk result (λ e. IsEndingOf (stop_of halt) (common_of common.now) e) }
{
    match halt {
        Halt::Over => over(alloc, common),
        Halt::TicksSpent => Ok(Some(Ending::GoesOn)),
        Halt::PastLimit(limit) => Ok(Some(Ending::Passes(limit))),
    }
}

/// What comes of a run that was given so many ticks and stops so; none where strand 0 ended with what is neither nil nor an
/// error that is there, where it waits for no strand of a ring, or where more ticks are left than it was given.
pub fn what_comes(
    alloc: Global,
    ticks: u64,
    halt: Halt,
    common: &Common,
) -> Result<Option<Outcome>, Memory>
    ensures { IfOk result (λ o. IsOutcome ticks (stop_of halt) (common_of common.now) o) }
{
    match how_ended(alloc, common, halt)? {
        None => Ok(None),
        Some(ending) => {
            if common.ticks > ticks {
                return Ok(None);
            }
            Ok(Some(Outcome {
                ending,
                output: Vec::from_slice(alloc, common.world.output.as_slice())?,
                rest: Vec::from_slice(alloc, common.world.input.as_slice())?,
                spent: ticks - common.ticks,
                picks: common.picks,
            }))
        }
    }
}
