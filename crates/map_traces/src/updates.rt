//! What assignments with an operator tell.
#![tactic(auto, using(crate::proofs::Tracing::tracing))]

ghost use Rattle.std.specs.Prelude.{◌≡◌, OnOk};
ghost use Rattle.map_traces.specs.Events.{known_of, tracing_of};
ghost use Rattle.map_traces.specs.Trees.{stored as stored_of, update_traced};

use crate::constructs::{loads, member, operator};
use crate::entry::{Around, Entry, operator_entry, variable_entry};
use crate::trace::Trace;
use crate::walk_exprs::{expr, taken};
use bal_base::Memory;
use typed_tree::{Operator, TypedExpr, UpdateTarget};

/// The value, the operator and the store, behind what was read.
fn stored<'a>(
    trace: &mut Trace<'a>,
    around: Around<'a>,
    op: Operator,
    value: &'a TypedExpr,
) -> Result<(), Memory>
    ensures { OnOk result (tracing_of trace.new ≡ stored_of (known_of around.entry) op value.now (tracing_of trace.old)) }
{
    expr(trace, around, value)?;
    operator(trace, around, op, 2, operator_entry(around, op))?;
    trace.leaves()
}

/// An assignment with an operator.
pub fn updates<'a>(
    trace: &mut Trace<'a>,
    around: Around<'a>,
    target: &'a UpdateTarget,
    op: Operator,
    value: &'a TypedExpr,
) -> Result<(), Memory>
    ensures { OnOk result (tracing_of trace.new ≡ update_traced (known_of around.entry) target.now op value.now (tracing_of trace.old)) }
{
    match target {
        UpdateTarget::Local { slot, narrowed, ty } => {
            loads(trace, around, *slot as usize, *narrowed, Entry::Tree(ty))?;
            stored(trace, around, op, value)
        }
        UpdateTarget::Variable(m) => {
            trace.gives(variable_entry(around, *m))?;
            stored(trace, around, op, value)
        }
        UpdateTarget::Member {
            own,
            read: how,
            container,
            key,
            ty,
        } => {
            taken(trace, around, container)?;
            taken(trace, around, key)?;
            member(trace, around, how, *own, Entry::Tree(ty))?;
            stored(trace, around, op, value)?;
            trace.take(2)
        }
    }
}
