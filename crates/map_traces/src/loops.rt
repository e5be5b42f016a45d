//! What loops tell beside their statements.
#![tactic(auto, using(crate::proofs::Tracing::tracing))]

ghost use Rattle.std.specs.Prelude.{◌≡◌, OnOk};
ghost use Rattle.map_traces.specs.Events.{known_of, tracing_of};
ghost use Rattle.map_traces.specs.Trees.{begin_traced, next_traced, prepare_traced, tries_traced};

use crate::constructs::raised;
use crate::entry::{Around, Entry, slot_entry};
use crate::trace::Trace;
use crate::walk_exprs::taken;
use bal_base::Memory;
use typed_tree::{RangeEnd, Source};

/// What stands before the first turn.
pub fn begins<'a>(
    trace: &mut Trace<'a>,
    around: Around<'a>,
    source: &'a Source,
) -> Result<(), Memory>
    ensures { OnOk result (tracing_of trace.new ≡ begin_traced (known_of around.entry) source.now (tracing_of trace.old)) }
{
    match source {
        Source::Range {
            own,
            end: RangeEnd::Included,
            from,
            to,
        } => {
            taken(trace, around, from)?;
            taken(trace, around, to)?;
            trace.gives(slot_entry(around, *own as usize))?;
            trace.gives(slot_entry(around, *own as usize + 1))?;
            trace.takes(2, Entry::Plain(around.boolean))?;
            trace.leaves()
        }
        Source::Range {
            end: RangeEnd::Excluded,
            from,
            to,
            ..
        } => {
            taken(trace, around, from)?;
            taken(trace, around, to)
        }
        Source::List { list, .. } => {
            taken(trace, around, list)?;
            trace.gives(Entry::Plain(around.int))?;
            trace.leaves()
        }
    }
}

/// Whether there is a further round.
pub fn tries<'a>(
    trace: &mut Trace<'a>,
    around: Around<'a>,
    source: &'a Source,
) -> Result<(), Memory>
    ensures { OnOk result (tracing_of trace.new ≡ tries_traced (known_of around.entry) source.now (tracing_of trace.old)) }
{
    match source {
        Source::Range {
            own,
            end: RangeEnd::Included,
            ..
        } => trace.gives(slot_entry(around, *own as usize + 2)),
        Source::Range {
            own,
            end: RangeEnd::Excluded,
            ..
        } => {
            trace.gives(slot_entry(around, *own as usize))?;
            trace.gives(slot_entry(around, *own as usize + 1))?;
            trace.takes(2, Entry::Plain(around.boolean))
        }
        Source::List { own, .. } => {
            raised(trace, around, *own as usize + 1)?;
            trace.gives(slot_entry(around, *own as usize + 1))?;
            trace.gives(slot_entry(around, *own as usize))?;
            trace.takes(1, Entry::Plain(around.int))?;
            trace.takes(2, Entry::Plain(around.boolean))
        }
    }
}

/// The variable of a range gets its value, and whether there is a further round is found out.
fn next<'a>(trace: &mut Trace<'a>, around: Around<'a>, own: u32) -> Result<(), Memory>
    ensures { OnOk result (tracing_of trace.new ≡ next_traced (known_of around.entry) own (tracing_of trace.old)) }
{
    let first = slot_entry(around, own as usize);
    trace.gives(first)?;
    trace.leaves()?;
    trace.gives(first)?;
    trace.gives(slot_entry(around, own as usize + 1))?;
    trace.takes(2, Entry::Plain(around.boolean))?;
    trace.leaves()?;
    trace.gives(slot_entry(around, own as usize + 2))?;
    trace.leaves()
}

/// The variable gets its value.
pub fn prepares<'a>(
    trace: &mut Trace<'a>,
    around: Around<'a>,
    slot: u32,
    source: &'a Source,
) -> Result<(), Memory>
    ensures { OnOk result (tracing_of trace.new ≡ prepare_traced (known_of around.entry) slot source.now (tracing_of trace.old)) }
{
    match source {
        Source::Range {
            own,
            end: RangeEnd::Included,
            ..
        } => {
            next(trace, around, *own)?;
            raised(trace, around, *own as usize)?;
            trace.place()
        }
        Source::Range {
            own,
            end: RangeEnd::Excluded,
            ..
        } => {
            trace.gives(slot_entry(around, *own as usize))?;
            trace.leaves()?;
            raised(trace, around, *own as usize)
        }
        Source::List { own, .. } => {
            trace.gives(slot_entry(around, *own as usize))?;
            trace.gives(slot_entry(around, *own as usize + 1))?;
            trace.takes(2, slot_entry(around, slot as usize))?;
            trace.leaves()
        }
    }
}
