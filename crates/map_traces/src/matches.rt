//! What the patterns of a match tell.
#![tactic(auto, using(crate::proofs::Tracing::tracing))]

ghost use Rattle.std.specs.Prelude.{◌≡◌, OnOk};
ghost use Rattle.map_traces.specs.Events.{known_of, tracing_of};
ghost use Rattle.map_traces.specs.Trees.{pattern_traced, patterns_traced};

use crate::entry::{Around, Entry, slot_entry};
use crate::trace::Trace;
use bal_base::Memory;
use operations::Constant;
use typed_tree::TypedPattern;

/// A pattern: it is tested, and leads to the body where it fits.
fn pattern<'a>(
    trace: &mut Trace<'a>,
    around: Around<'a>,
    own: u32,
    value: &'a Option<Constant>,
) -> Result<(), Memory>
    ensures { OnOk result (tracing_of trace.new ≡ pattern_traced (known_of around.entry) own value.now (tracing_of trace.old)) }
{
    if value.is_some() {
        trace.gives(slot_entry(around, own as usize))?;
        trace.takes(1, Entry::Plain(around.boolean))?;
        trace.leaves()?;
    }
    trace.place()
}

/// Patterns, one after another.
pub fn patterns<'a>(
    trace: &mut Trace<'a>,
    around: Around<'a>,
    own: u32,
    ps: &'a [TypedPattern],
) -> Result<(), Memory>
    ensures { OnOk result (tracing_of trace.new ≡ patterns_traced (known_of around.entry) own ps.now (tracing_of trace.old)) }
{
    for p in ps {
        pattern(trace, around, own, &p.value)?;
    }
    Ok(())
}
