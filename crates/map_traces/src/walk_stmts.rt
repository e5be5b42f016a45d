//! What statements tell.
#![tactic(auto, using(crate::proofs::Tracing::tracing, typed_tree::proofs::StmtLayers::stmt_layers))]

ghost use Rattle.std.specs.Prelude.{◌≡◌, OnOk, length, map};
ghost use Rattle.map_traces.specs.Events.{known_of, tracing_of};
ghost use Rattle.map_traces.specs.Tracing.{drops, place};
ghost use Rattle.map_traces.specs.Trees.{clause_traced, clauses_in_turn, exprs_traced, return_traced, stmt_traced, stmts_traced};

use crate::entry::{Around, Entry};
use crate::loops::{begins, prepares, tries};
use crate::matches::patterns;
use crate::trace::Trace;
use crate::updates::updates;
use crate::walk_exprs::{expr, exprs, taken};
use bal_base::Memory;
use typed_tree::{TypedClause, TypedExpr, TypedStmt};

/// A return with a value, or with nil.
fn returns<'a>(
    trace: &mut Trace<'a>,
    around: Around<'a>,
    value: &'a Option<Box<TypedExpr>>,
) -> Result<(), Memory>
    ensures { OnOk result (tracing_of trace.new ≡ return_traced (known_of around.entry) value.now (tracing_of trace.old)) }
{
    match value {
        None => {
            trace.gives(Entry::Nil)?;
            trace.leaves()
        }
        Some(e) => taken(trace, around, e),
    }
}

/// Operands, and an operation that takes all of them.
fn performs<'a>(
    trace: &mut Trace<'a>,
    around: Around<'a>,
    operands: &'a [TypedExpr],
) -> Result<(), Memory>
    ensures { OnOk result (tracing_of trace.new ≡ drops (length operands.now) (place (exprs_traced (known_of around.entry) operands.now (tracing_of trace.old)))) }
{
    exprs(trace, around, operands)?;
    trace.place()?;
    trace.take(operands.len())
}

/// What a statement tells, in time that grows with the nodes of the tree. It answers want of memory alone.
#[cycle(stmt)]
pub fn stmt<'a>(trace: &mut Trace<'a>, around: Around<'a>, s: &'a TypedStmt) -> Result<(), Memory>
    ensures { OnOk result (tracing_of trace.new ≡ stmt_traced (known_of around.entry) s.now (tracing_of trace.old)) }
{
    match s {
        TypedStmt::Set { value, .. } => taken(trace, around, value),
        TypedStmt::Perform { operands, .. } => performs(trace, around, operands),
        TypedStmt::Update {
            target,
            op,
            value,
            ..
        } => updates(trace, around, target, *op, value),
        TypedStmt::If {
            condition,
            first,
            second,
            ..
        } => {
            taken(trace, around, condition)?;
            stmts(trace, around, first)?;
            trace.place()?;
            stmts(trace, around, second)
        }
        TypedStmt::While {
            condition,
            body,
            ..
        } => {
            trace.place()?;
            expr(trace, around, condition)?;
            trace.leaves()?;
            stmts(trace, around, body)?;
            trace.place()
        }
        TypedStmt::Foreach {
            slot,
            source,
            body,
            ..
        } => {
            begins(trace, around, source)?;
            trace.place()?;
            tries(trace, around, source)?;
            trace.leaves()?;
            prepares(trace, around, *slot, source)?;
            stmts(trace, around, body)?;
            trace.place()
        }
        TypedStmt::Match {
            own,
            subject,
            clauses: cs,
            ..
        } => {
            taken(trace, around, subject)?;
            clauses(trace, around, cs, *own)
        }
        TypedStmt::Return { value, .. } => returns(trace, around, value),
        TypedStmt::Block { stmts: inner, .. } => stmts(trace, around, inner),
        TypedStmt::Break { .. } | TypedStmt::Continue { .. } => trace.place(),
    }
}

/// What a clause tells: its patterns and a jump over the body, the body and a jump to the end.
#[cycle(stmt)]
fn clause<'a>(
    trace: &mut Trace<'a>,
    around: Around<'a>,
    c: &'a TypedClause,
    own: u32,
) -> Result<(), Memory>
    ensures { OnOk result (tracing_of trace.new ≡ clause_traced (known_of around.entry) c.now own (tracing_of trace.old)) }
{
    patterns(trace, around, own, &c.patterns)?;
    trace.place()?;
    stmts(trace, around, &c.stmts)?;
    trace.place()
}

/// What clauses tell, one after another.
#[cycle(stmt)]
fn clauses<'a>(
    trace: &mut Trace<'a>,
    around: Around<'a>,
    cs: &'a [TypedClause],
    own: u32,
) -> Result<(), Memory>
    ensures { OnOk result (tracing_of trace.new ≡ clauses_in_turn (map (clause_traced (known_of around.entry)) cs.now) own (tracing_of trace.old)) }
{
    for c in cs {
        clause(trace, around, c, own)?;
    }
    Ok(())
}

/// What statements tell, one after another.
#[cycle(stmt)]
pub fn stmts<'a>(
    trace: &mut Trace<'a>,
    around: Around<'a>,
    ss: &'a [TypedStmt],
) -> Result<(), Memory>
    ensures { OnOk result (tracing_of trace.new ≡ stmts_traced (known_of around.entry) ss.now (tracing_of trace.old)) }
{
    for s in ss {
        stmt(trace, around, s)?;
    }
    Ok(())
}
