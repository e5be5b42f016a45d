//! What the operations of constructs do with the operands.
#![tactic(auto, using(crate::proofs::Tracing::tracing))]

ghost use Rattle.std.specs.Prelude.{◌≡◌, OnOk, Some};
ghost use Rattle.typed_tree.specs.declared.form.Operator.TheVariants.{NotSame};
ghost use Rattle.map_traces.specs.Constructs.{callee_traced, captured_loaded, captures_loaded, field_read, form_traced, keyed_read, library_traced, loads as loads_of, member_read as member_read_of, operator_traced, peer_traced, raised as raised_of, sync_traced, tested as tested_of};
ghost use Rattle.map_traces.specs.Events.{known_of, tracing_of, type_of};

use crate::entry::{Around, Entry, slot_entry};
use crate::trace::Trace;
use bal_base::Memory;
use typed_tree::{Callee, Captured, Operator, Peer, Read, SharedTy, StrictForm};

/// A slot is loaded, which here gives this type, by a cast or without.
pub fn loads<'a>(
    trace: &mut Trace<'a>,
    around: Around<'a>,
    slot: usize,
    narrowed: bool,
    given: Entry<'a>,
) -> Result<(), Memory>
    ensures { OnOk result (tracing_of trace.new ≡ loads_of (known_of around.entry) slot narrowed (type_of given.entry) (tracing_of trace.old)) }
{
    if narrowed {
        trace.gives(slot_entry(around, slot))?;
        return trace.takes(1, given);
    }
    trace.gives(given)
}

/// A captured variable is loaded, as what it is narrowed to.
fn loads_captured<'a>(
    trace: &mut Trace<'a>,
    around: Around<'a>,
    c: &'a Captured,
) -> Result<(), Memory>
    ensures { OnOk result (tracing_of trace.new ≡ captured_loaded (known_of around.entry) c.now (tracing_of trace.old)) }
{
    loads(
        trace,
        around,
        c.slot as usize,
        c.narrowed,
        Entry::Tree(&c.ty),
    )
}

/// Captured variables are loaded, one after another.
pub fn captures<'a>(
    trace: &mut Trace<'a>,
    around: Around<'a>,
    captured: &'a [Captured],
) -> Result<(), Memory>
    ensures { OnOk result (tracing_of trace.new ≡ captures_loaded (known_of around.entry) captured.now (tracing_of trace.old)) }
{
    for c in captured {
        loads_captured(trace, around, c)?;
    }
    Ok(())
}

/// The int in the slot is one more.
pub fn raised<'a>(trace: &mut Trace<'a>, around: Around<'a>, slot: usize) -> Result<(), Memory>
    ensures { OnOk result (tracing_of trace.new ≡ raised_of (known_of around.entry) slot (tracing_of trace.old)) }
{
    trace.gives(slot_entry(around, slot))?;
    trace.gives(Entry::Plain(around.int))?;
    trace.takes(2, Entry::Plain(around.int))?;
    trace.leaves()
}

/// A value is kept in a slot, and tested.
pub fn tested<'a>(trace: &mut Trace<'a>, around: Around<'a>, own: usize) -> Result<(), Memory>
    ensures { OnOk result (tracing_of trace.new ≡ tested_of (known_of around.entry) own (tracing_of trace.old)) }
{
    trace.leaves()?;
    trace.gives(slot_entry(around, own))?;
    trace.takes(1, Entry::Plain(around.boolean))
}

/// The operations of an operator, over so many operands.
pub fn operator<'a>(
    trace: &mut Trace<'a>,
    around: Around<'a>,
    op: Operator,
    count: usize,
    given: Entry<'a>,
) -> Result<(), Memory>
    ensures { OnOk result (tracing_of trace.new ≡ operator_traced (known_of around.entry) op count (type_of given.entry) (tracing_of trace.old)) }
{
    match op {
        Operator::Negate | Operator::Not | Operator::Multiply => trace.takes(count, given),
        Operator::Divide | Operator::Remainder | Operator::Add => trace.takes(count, given),
        Operator::Concat | Operator::Subtract | Operator::Less => trace.takes(count, given),
        Operator::LessEqual | Operator::Equal | Operator::Same => trace.takes(count, given),
        Operator::Greater | Operator::GreaterEqual => twice(trace, around, count, given),
        Operator::NotEqual | Operator::NotSame => twice(trace, around, count, given),
    }
}

/// A boolean is given, and then turned round.
fn twice<'a>(
    trace: &mut Trace<'a>,
    around: Around<'a>,
    count: usize,
    given: Entry<'a>,
) -> Result<(), Memory>
    ensures { OnOk result (tracing_of trace.new ≡ operator_traced (known_of around.entry) NotSame count (type_of given.entry) (tracing_of trace.old)) }
{
    trace.takes(count, Entry::Plain(around.boolean))?;
    trace.takes(1, given)
}

/// The operations of a call or a start over so many operands.
fn callee<'a>(
    trace: &mut Trace<'a>,
    called: Callee,
    count: usize,
    given: Entry<'a>,
) -> Result<(), Memory>
    ensures { OnOk result (tracing_of trace.new ≡ callee_traced called count (type_of given.entry) (tracing_of trace.old)) }
{
    match called {
        Callee::Unit {
            fixed,
            rest: Some(atom),
            ..
        } => {
            let passed = count.saturating_sub(fixed as usize);
            trace.takes(passed, Entry::Atom(atom))?;
            trace.takes(count - passed + 1, given)
        }
        Callee::Unit { rest: None, .. } | Callee::Value => trace.takes(count, given),
    }
}

/// The operations of a call of the library over so many operands.
fn library<'a>(
    trace: &mut Trace<'a>,
    cast: &'a Option<SharedTy>,
    count: usize,
    given: Entry<'a>,
) -> Result<(), Memory>
    ensures { OnOk result (tracing_of trace.new ≡ library_traced cast.now count (type_of given.entry) (tracing_of trace.old)) }
{
    match cast {
        None => trace.takes(count, given),
        Some(_) => {
            trace.takes(count, Entry::Readonly)?;
            trace.takes(1, given)
        }
    }
}

/// The operations of an action that names a worker, behind a tick; nothing where it names none.
fn peer<'a>(
    trace: &mut Trace<'a>,
    named: Peer,
    count: usize,
    given: Entry<'a>,
) -> Result<(), Memory>
    ensures { OnOk result (tracing_of trace.new ≡ peer_traced named count (type_of given.entry) (tracing_of trace.old)) }
{
    if named.is_some() {
        trace.place()?;
        return trace.takes(count, given);
    }
    trace.take(count)?;
    trace.push(given)
}

/// A message is posted and then waited for, behind a tick; nothing where no worker is named.
fn sync<'a>(
    trace: &mut Trace<'a>,
    named: Peer,
    count: usize,
    given: Entry<'a>,
) -> Result<(), Memory>
    ensures { OnOk result (tracing_of trace.new ≡ sync_traced named count (type_of given.entry) (tracing_of trace.old)) }
{
    if named.is_some() {
        trace.place()?;
        trace.place()?;
        trace.take(count)?;
        return trace.gives(given);
    }
    trace.take(count)?;
    trace.push(given)
}

/// A wait, behind a tick.
fn wait<'a>(trace: &mut Trace<'a>, count: usize, given: Entry<'a>) -> Result<(), Memory>
    ensures { OnOk result (tracing_of trace.new ≡ peer_traced (Some 0) count (type_of given.entry) (tracing_of trace.old)) }
{
    trace.place()?;
    trace.takes(count, given)
}

/// The operations of a construct over so many operands, which leaves this type.
pub fn strict<'a>(
    trace: &mut Trace<'a>,
    around: Around<'a>,
    form: &'a StrictForm,
    count: usize,
    given: Entry<'a>,
) -> Result<(), Memory>
    ensures { OnOk result (tracing_of trace.new ≡ form_traced (known_of around.entry) form.now count (type_of given.entry) (tracing_of trace.old)) }
{
    match form {
        StrictForm::Literal(_) | StrictForm::Constant(_) => trace.takes(count, given),
        StrictForm::Variable(_) | StrictForm::FunctionName { .. } => trace.takes(count, given),
        StrictForm::Is(_) | StrictForm::Cast(_) => trace.takes(count, given),
        StrictForm::List { .. } | StrictForm::Mapping { .. } => trace.takes(count, given),
        StrictForm::Error | StrictForm::Read(_) => trace.takes(count, given),
        StrictForm::Operator(op) => operator(trace, around, *op, count, given),
        StrictForm::Call(called) | StrictForm::Start(called) => {
            callee(trace, *called, count, given)
        }
        StrictForm::Library { cast, .. } => library(trace, cast, count, given),
        StrictForm::Send(named) | StrictForm::Receive(named) | StrictForm::Flush(named) => {
            peer(trace, *named, count, given)
        }
        StrictForm::SyncSend(named) => sync(trace, *named, count, given),
        StrictForm::WaitAny(_) | StrictForm::WaitAll { .. } => wait(trace, count, given),
    }
}

/// A container and a key that are kept in slots are loaded, and once more to read the member.
fn keyed<'a>(
    trace: &mut Trace<'a>,
    around: Around<'a>,
    own: u32,
    given: Entry<'a>,
) -> Result<(), Memory>
    ensures { OnOk result (tracing_of trace.new ≡ keyed_read (known_of around.entry) own (type_of given.entry) (tracing_of trace.old)) }
{
    let container = slot_entry(around, own as usize);
    let key = slot_entry(around, own as usize + 1);
    trace.gives(container)?;
    trace.gives(key)?;
    trace.gives(container)?;
    trace.gives(key)?;
    trace.takes(2, given)
}

/// The same for a field, which needs no key.
fn field<'a>(
    trace: &mut Trace<'a>,
    around: Around<'a>,
    own: u32,
    given: Entry<'a>,
) -> Result<(), Memory>
    ensures { OnOk result (tracing_of trace.new ≡ field_read (known_of around.entry) own (type_of given.entry) (tracing_of trace.old)) }
{
    let container = slot_entry(around, own as usize);
    let key = slot_entry(around, own as usize + 1);
    trace.gives(container)?;
    trace.gives(key)?;
    trace.gives(container)?;
    trace.takes(1, given)
}

/// A member is read, whose container and key are kept from this slot on.
pub fn member<'a>(
    trace: &mut Trace<'a>,
    around: Around<'a>,
    how: &'a Read,
    own: u32,
    given: Entry<'a>,
) -> Result<(), Memory>
    ensures { OnOk result (tracing_of trace.new ≡ member_read_of (known_of around.entry) how.now own (type_of given.entry) (tracing_of trace.old)) }
{
    match how {
        Read::Item | Read::Key | Read::Char => keyed(trace, around, own, given),
        Read::Field(_) | Read::OptionalField(_) => field(trace, around, own, given),
    }
}
