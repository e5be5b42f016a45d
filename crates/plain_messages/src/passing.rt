//! What passes through channels.
#![tactic(auto, using(crate::proofs::Changing::changing))]

ghost use Rattle.std.specs.Prelude.{◌≡◌, ◌+◌, IfOk, OnOk, drop, map, option_copied};
ghost use Rattle.op_model.specs.Strands.{no_activation};
ghost use Rattle.plain_run.specs.Held.{activation_of, channel_of, common_of};
ghost use Rattle.plain_run.specs.Strands.{channel_there};
ghost use Rattle.plain_messages.specs.Channels.{changed, first_of as first_of_list, passed, passed_from, passed_in, passed_on, passed_to};

use bal_base::Memory;
use plain_run::{Activation, Channel, Common};
use value_model::Value;

/// What passes through a channel.
#[derive(Drop)]
pub enum Passing {
    /// One message more.
    Sent(Value),
    /// The first message was received.
    Received,
}

/// The first message, where there is one.
pub(crate) fn first_message(x: Option<&Channel>) -> Option<Value>
    ensures { result ≡ first_of_list (channel_there (option_copied x.entry)).queue }
{
    match x {
        None => None,
        Some(x) => first_of(x.queue.as_slice()),
    }
}

fn first_of(values: &[Value]) -> Option<Value>
    ensures { result ≡ first_of_list values.now }
{
    match values {
        [] => None,
        [v, ..] => Some(v.share()),
    }
}

/// How many messages were sent, and how many were received.
pub(crate) fn sent(x: Option<&Channel>) -> u64
    ensures { result ≡ (channel_there (option_copied x.entry)).sent }
{
    match x {
        None => 0,
        Some(x) => x.sent,
    }
}

pub(crate) fn received(x: Option<&Channel>) -> u64
    ensures { result ≡ (channel_there (option_copied x.entry)).received }
{
    match x {
        None => 0,
        Some(x) => x.received,
    }
}

/// One more, where a number counts it.
fn one_more(n: u64) -> Result<u64, Memory>
    ensures { IfOk result (λ m. m ≡ n + 1) }
{
    match n.checked_add(1) {
        None => Err(Memory),
        Some(m) => Ok(m),
    }
}

fn drop_first(values: &mut Vec<Value>)
    ensures { values.new.items ≡ drop 1 values.old.items }
{
    if !values.is_empty() {
        values.remove(0);
    }
}

fn pass(x: &mut Channel, passing: Passing) -> Result<(), Memory>
    ensures { OnOk result (channel_of x.new ≡ passed passing (channel_of x.old)) }
{
    match passing {
        Passing::Sent(v) => {
            x.sent = one_more(x.sent)?;
            x.queue.push(v)?;
            Ok(())
        }
        Passing::Received => {
            x.received = one_more(x.received)?;
            drop_first(&mut x.queue);
            Ok(())
        }
    }
}

fn pass_to(row: &mut Vec<Channel>, to: u64, passing: Passing) -> Result<(), Memory>
    ensures { OnOk result (map channel_of row.new.items ≡ passed_to passing to (map channel_of row.old.items)) }
{
    match row.get_mut(to as usize) {
        None => Ok(()),
        Some(x) => pass(x, passing),
    }
}

fn pass_from(
    rows: &mut Vec<Vec<Channel>>,
    from: u64,
    to: u64,
    passing: Passing,
) -> Result<(), Memory>
    ensures { OnOk result (map (λ xs. map channel_of xs.items) rows.new.items ≡ passed_from passing from to (map (λ xs. map channel_of xs.items) rows.old.items)) }
{
    match rows.get_mut(from as usize) {
        None => Ok(()),
        Some(row) => pass_to(row, to, passing),
    }
}

fn pass_in(
    activations: &mut Vec<Activation>,
    activation: u64,
    from: u64,
    to: u64,
    passing: Passing,
) -> Result<(), Memory>
    ensures { OnOk result (map activation_of activations.new.items ≡ changed (passed_in passing from to) no_activation (map activation_of activations.old.items) activation) }
{
    match activations.get_mut(activation as usize) {
        None => Ok(()),
        Some(a) => pass_from(&mut a.channels, from, to, passing),
    }
}

/// So much passes from a worker to a worker.
pub(crate) fn pass_on(
    common: &mut Common,
    activation: u64,
    from: u64,
    to: u64,
    passing: Passing,
) -> Result<(), Memory>
    ensures { OnOk result (common_of common.new ≡ passed_on passing activation from to (common_of common.old)) }
{
    pass_in(&mut common.activations, activation, from, to, passing)
}
