//! The events of a function by its syntax.
#![tactic(auto, using(bal_tree::proofs::StmtLayers::stmt_layers))]

ghost use Rattle.std.specs.Prelude.{◌≡◌, ◌++◌, IfOk, OnOk};
ghost use Rattle.typed_tree.specs.Skeleton.{events_of, events_of_block, events_of_body, events_of_default, events_of_value, events_of_named, events_from};

mod actions;
mod exprs;
mod names;
mod progress;
mod stmts;

use crate::event::{EventKind, SeenEvent};
use bal_base::{Memory, Place};
use bal_tree::{Body, Def, Expr, Stmt, Worker};
use progress::{Observer, Seen};
use std::alloc::Global;

/// The events of a function by worker, the default worker first, and by text order within a worker. It looks at the
/// syntax alone, so messages to no worker and events within branches are seen too. Any other definition has no
/// events.
pub fn skeleton(alloc: Global, f: &Def) -> Result<Vec<SeenEvent>, Memory>
    ensures { IfOk result (λ events. events.items ≡ events_of f.now) }
{
    match f {
        Def::Function(f) => skeleton_of_body(alloc, &f.body),
        Def::Type(_) | Def::Const(_) | Def::Variable(_) => Ok(Vec::new(alloc)),
    }
}

/// The same of a function by its body: the events by worker, and by text order within a worker.
pub fn skeleton_of_body(alloc: Global, body: &Body) -> Result<Vec<SeenEvent>, Memory>
    ensures { IfOk result (λ events. events.items ≡ events_of_body body.now) }
{
    match body {
        Body::Block {
            stmts: initial,
            workers,
            rest,
            close,
            ..
        } => of_block(alloc, workers, initial, rest, *close),
        Body::Expr { value, at } => of_value(alloc, value, *at),
    }
}

/// The events of a body between braces.
fn of_block(
    alloc: Global,
    workers: &[Worker],
    initial: &[Stmt],
    rest: &[Stmt],
    close: Place,
) -> Result<Vec<SeenEvent>, Memory>
    ensures { IfOk result (λ events. events.items ≡ events_of_block workers.now initial.now rest.now close) }
{
    let mut events = of_default(alloc, workers, initial, rest, close)?;
    add_named(&mut events, workers, alloc)?;
    Ok(events)
}

/// The events of the default worker.
fn of_default(
    alloc: Global,
    workers: &[Worker],
    initial: &[Stmt],
    rest: &[Stmt],
    close: Place,
) -> Result<Vec<SeenEvent>, Memory>
    ensures { IfOk result (λ events. events.items ≡ events_of_default workers.now initial.now rest.now close) }
{
    let mut seen = Seen::new(alloc);
    let initially = Observer {
        alloc,
        own: 0,
        counts: false,
    };
    stmts::stmts(&mut seen, workers, initially, initial)?;
    let then = Observer {
        alloc,
        own: 0,
        counts: true,
    };
    stmts::stmts(&mut seen, workers, then, rest)?;
    seen.see(then, EventKind::End, close)?;
    Ok(seen.events)
}

/// The events of a body that is an expression.
fn of_value(alloc: Global, value: &Expr, at: Place) -> Result<Vec<SeenEvent>, Memory>
    ensures { IfOk result (λ events. events.items ≡ events_of_value value.now at) }
{
    let mut seen = Seen::new(alloc);
    let by = Observer {
        alloc,
        own: 0,
        counts: true,
    };
    seen.unless(by, exprs::expr(value));
    seen.see(by, EventKind::End, at)?;
    Ok(seen.events)
}

/// Adds the events of the named workers.
fn add_named(events: &mut Vec<SeenEvent>, workers: &[Worker], alloc: Global) -> Result<(), Memory>
    ensures { OnOk result (events.new.items ≡ events.old.items ++ events_from workers.now 1 workers.now) }
{
    let mut own: u32 = 1;
    for w in workers {
        let mut seen = of_named(alloc, workers, own, w)?;
        events.append(&mut seen)?;
        own = own.checked_add(1).ok_or(Memory)?;
    }
    Ok(())
}

/// The events of a named worker with this number.
fn of_named(
    alloc: Global,
    workers: &[Worker],
    own: u32,
    w: &Worker,
) -> Result<Vec<SeenEvent>, Memory>
    ensures { IfOk result (λ events. events.items ≡ events_of_named workers.now own w.now) }
{
    let mut seen = Seen::new(alloc);
    let by = Observer {
        alloc,
        own,
        counts: true,
    };
    stmts::block(&mut seen, workers, by, &w.body)?;
    seen.see(by, EventKind::End, w.body.close)?;
    Ok(seen.events)
}
