//! What units tell.
#![tactic(auto, using(crate::proofs::Tracing::tracing))]

ghost use Rattle.std.specs.Prelude.{◌≡◌, OnOk};
ghost use Rattle.typed_tree.specs.Units.{OfFunction};
ghost use Rattle.lower_stmt.specs.Bodies.{body_of};
ghost use Rattle.map_traces.specs.Events.{known_of, tracing_of};
ghost use Rattle.map_traces.specs.Trees.{body_traced, end_traced, initial_traced, initials_traced, named_traced, stmts_traced, unit_traced};

use crate::entry::{Around, Entry};
use crate::trace::Trace;
use crate::walk_exprs::taken;
use crate::walk_stmts::stmts;
use bal_base::Memory;
use lower_stmt::Body;
use typed_tree::{Initial, TypedBody, TypedStmt, TypedWorker};

/// The end, where nil is returned, or it goes round and round.
fn ends(trace: &mut Trace<'_>, reached: bool) -> Result<(), Memory>
    ensures { OnOk result (tracing_of trace.new ≡ end_traced reached (tracing_of trace.old)) }
{
    if reached {
        trace.gives(Entry::Nil)?;
        return trace.leaves();
    }
    trace.place()?;
    trace.place()
}

/// Named workers are started, where there are any.
fn named(trace: &mut Trace<'_>, workers: &[TypedWorker]) -> Result<(), Memory>
    ensures { OnOk result (tracing_of trace.new ≡ named_traced workers.now (tracing_of trace.old)) }
{
    match workers {
        [] => Ok(()),
        [_, ..] => trace.place(),
    }
}

/// The initial value of a module variable.
fn initial<'a>(trace: &mut Trace<'a>, around: Around<'a>, i: &'a Initial) -> Result<(), Memory>
    ensures { OnOk result (tracing_of trace.new ≡ initial_traced (known_of around.entry) i.now (tracing_of trace.old)) }
{
    taken(trace, around, &i.value)
}

/// Initial values of module variables, one after another.
fn initials<'a>(trace: &mut Trace<'a>, around: Around<'a>, is: &'a [Initial]) -> Result<(), Memory>
    ensures { OnOk result (tracing_of trace.new ≡ initials_traced (known_of around.entry) is.now (tracing_of trace.old)) }
{
    for i in is {
        initial(trace, around, i)?;
    }
    Ok(())
}

/// The statements of a body, and its end.
fn statements<'a>(
    trace: &mut Trace<'a>,
    around: Around<'a>,
    ss: &'a [TypedStmt],
    reached: bool,
) -> Result<(), Memory>
    ensures { OnOk result (tracing_of trace.new ≡ end_traced reached (stmts_traced (known_of around.entry) ss.now (tracing_of trace.old))) }
{
    stmts(trace, around, ss)?;
    ends(trace, reached)
}

/// The body of a function.
fn function<'a>(
    trace: &mut Trace<'a>,
    around: Around<'a>,
    body: &'a TypedBody,
) -> Result<(), Memory>
    ensures { OnOk result (tracing_of trace.new ≡ body_traced (known_of around.entry) (OfFunction body.now) (tracing_of trace.old)) }
{
    match body {
        TypedBody::Block {
            initial,
            workers,
            rest,
            ends: reached,
            ..
        } => {
            stmts(trace, around, initial)?;
            named(trace, workers)?;
            statements(trace, around, rest, *reached)
        }
        TypedBody::Expr { value } => taken(trace, around, value),
    }
}

/// What a unit tells: a tick, its body, and its end, in time that grows with the nodes of the tree. It answers want of memory alone.
pub fn unit<'a>(trace: &mut Trace<'a>, around: Around<'a>, body: Body<'a>) -> Result<(), Memory>
    ensures { OnOk result (tracing_of trace.new ≡ unit_traced (known_of around.entry) (body_of body.entry) (tracing_of trace.old)) }
{
    trace.place()?;
    match body {
        Body::Function(b) => function(trace, around, b),
        Body::Worker(w) => statements(trace, around, &w.stmts, w.ends),
        Body::Anonymous(e) => taken(trace, around, e),
        Body::Initialiser(is) => {
            initials(trace, around, is)?;
            ends(trace, true)
        }
    }
}
