//! Who has ended, and whose needs are met.
#![tactic(auto, using(crate::proofs::Looking::looking))]

ghost use Rattle.std.specs.Prelude.{◌≡◌, [], None, Some, get_or, is_some, map, option_copied, option_map};
ghost use Rattle.std.specs.List.{list_all, list_any};
ghost use Rattle.op_model.specs.Strands as model;
ghost use Rattle.plain_run.specs.Held.{channel_of, common_of, end_of as end_held, need_of, status_of};
ghost use Rattle.plain_run.specs.Strands.{channel_there};

use crate::held::{Channel, Common, End, Need, Status, Strand};
use value_model::Value;

/// How the strand has ended, where it has.
fn end_in(strand: &Strand) -> Option<&End>
    ensures { option_map end_held (option_copied result) ≡ model.end_in (status_of strand.now.status) }
{
    match &strand.status {
        Status::Active | Status::Blocked(_) => None,
        Status::Ended(_, end) => Some(end),
    }
}

/// How the strand with this number has ended, where it has.
pub fn strand_end(common: &Common, n: u64) -> Option<&End>
    ensures { option_map end_held (option_copied result) ≡ model.end_of (common_of common.now) n }
{
    match common.strands.get(n as usize) {
        None => None,
        Some(strand) => end_in(strand),
    }
}

/// Whether it has ended.
pub fn has_ended(common: &Common, n: u64) -> bool
    ensures { result ≡ model.has_ended (common_of common.now) n }
{
    match strand_end(common, n) {
        None => false,
        Some(_) => true,
    }
}

fn is_error(v: &Value) -> bool
    ensures { result ≡ model.is_error v.now }
{
    match v {
        Value::Error(_) => true,
        Value::Nil | Value::Bool(_) | Value::Int(_) | Value::Str(_) => false,
        Value::Struct(_) | Value::Function(_) | Value::Future { .. } => false,
    }
}

/// Whether it returned a value that is no error.
pub fn is_success(end: &End) -> bool
    ensures { result ≡ model.is_success (Some (end_held end.now)) }
{
    match end {
        End::Returned(v) => !is_error(v),
        End::Panicked(_) => false,
    }
}

/// Whether the strand has a result that is no error and that was not taken.
pub fn has_success(common: &Common, n: u64) -> bool
    ensures { result ≡ model.has_success (common_of common.now) n }
{
    match common.strands.get(n as usize) {
        None => false,
        Some(strand) => match end_in(strand) {
            None => false,
            Some(end) => is_success(end) && !strand.taken,
        },
    }
}

/// How a worker has ended, where it has.
pub fn worker_end(common: &Common, activation: u64, worker: u64) -> Option<&End>
    ensures { option_map end_held (option_copied result) ≡ model.worker_end (common_of common.now) activation worker }
{
    match common.activations.get(activation as usize) {
        None => None,
        Some(a) => end_at(a.ends.as_slice(), worker),
    }
}

/// How the worker with this number has ended, by these ends.
fn end_at(ends: &[Option<End>], worker: u64) -> Option<&End>
    ensures { option_map end_held (option_copied result) ≡ get_or (map (option_map end_held) ends.now) worker None }
{
    match ends.get(worker as usize) {
        None => None,
        Some(None) => None,
        Some(Some(end)) => Some(end),
    }
}

fn worker_has_ended(common: &Common, activation: u64, worker: u64) -> bool
    ensures { result ≡ is_some (model.worker_end (common_of common.now) activation worker) }
{
    match worker_end(common, activation, worker) {
        None => false,
        Some(_) => true,
    }
}

/// What was sent from a worker to a worker, where they are there.
pub fn channel(common: &Common, activation: u64, from: u64, to: u64) -> Option<&Channel>
    ensures { channel_there (option_copied result) ≡ model.channel_at (common_of common.now) activation from to }
{
    match common.activations.get(activation as usize) {
        None => None,
        Some(a) => channel_in(a.channels.as_slice(), from, to),
    }
}

fn channel_in(rows: &[Vec<Channel>], from: u64, to: u64) -> Option<&Channel>
    ensures { channel_there (option_copied result) ≡ get_or (get_or (map (λ xs. map channel_of xs.items) rows.now) from []) to model.no_channel }
{
    match rows.get(from as usize) {
        None => None,
        Some(row) => row.get(to as usize),
    }
}

/// Whether a message waits.
fn has_message(x: Option<&Channel>) -> bool
    ensures { result ≡ model.is_there (channel_there (option_copied x.entry)).queue }
{
    match x {
        None => false,
        Some(x) => !x.queue.is_empty(),
    }
}

/// How many messages were received.
fn received(x: Option<&Channel>) -> u64
    ensures { result ≡ (channel_there (option_copied x.entry)).received }
{
    match x {
        None => 0,
        Some(x) => x.received,
    }
}

fn all_ended(common: &Common, strands: &[u64]) -> bool
    ensures { result ≡ list_all (model.has_ended (common_of common.now)) strands.now }
{
    for n in strands {
        if !has_ended(common, *n) {
            return false;
        }
    }
    true
}

fn any_success(common: &Common, strands: &[u64]) -> bool
    ensures { result ≡ list_any (model.has_success (common_of common.now)) strands.now }
{
    for n in strands {
        if has_success(common, *n) {
            return true;
        }
    }
    false
}

/// Whether the need is met.
pub fn is_met(common: &Common, need: &Need) -> bool
    ensures { result ≡ model.met (common_of common.now) (need_of need.now) }
{
    match need {
        Need::Message {
            activation,
            from,
            to,
        } => {
            let x = channel(common, *activation, *from, *to);
            has_message(x) || worker_has_ended(common, *activation, *from)
        }
        Need::Received {
            activation,
            from,
            to,
            count,
        } => {
            let x = channel(common, *activation, *from, *to);
            *count <= received(x) || worker_has_ended(common, *activation, *to)
        }
        Need::AllEnded(strands) => all_ended(common, strands.as_slice()),
        Need::AnyGiven(strands) => {
            any_success(common, strands.as_slice()) || all_ended(common, strands.as_slice())
        }
    }
}
