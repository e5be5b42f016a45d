//! What expressions and actions tell.
#![tactic(auto, using(crate::proofs::Tracing::tracing, typed_tree::proofs::ExprLayers::expr_layers))]

ghost use Rattle.std.specs.Prelude.{◌≡◌, OnOk, length};
ghost use Rattle.typed_tree.specs.SharedTypes.{sem_of};
ghost use Rattle.map_traces.specs.Constructs.{captures_loaded};
ghost use Rattle.map_traces.specs.Events.{known_of, tracing_of};
ghost use Rattle.map_traces.specs.Tracing.{takes};
ghost use Rattle.map_traces.specs.Trees.{expr_traced, exprs_traced, taken as taken_of};

use crate::constructs::{captures, loads, strict, tested};
use crate::entry::{Around, Entry};
use crate::trace::Trace;
use bal_base::Memory;
use typed_tree::{AnonymousFunction, SharedTy, TypedExpr};

/// A function value with what it captures.
fn function<'a>(
    trace: &mut Trace<'a>,
    around: Around<'a>,
    f: &'a AnonymousFunction,
    ty: &'a SharedTy,
) -> Result<(), Memory>
    ensures { OnOk result (tracing_of trace.new ≡ takes (length f.now.captured) (sem_of ty.now) (captures_loaded (known_of around.entry) f.now.captured (tracing_of trace.old))) }
{
    let captured = f.captured.as_slice();
    captures(trace, around, captured)?;
    trace.takes(captured.len(), Entry::Tree(ty))
}

/// What an expression tells, in time that grows with the nodes of the tree. It answers want of memory alone.
#[cycle(expr)]
pub fn expr<'a>(trace: &mut Trace<'a>, around: Around<'a>, e: &'a TypedExpr) -> Result<(), Memory>
    ensures { OnOk result (tracing_of trace.new ≡ expr_traced (known_of around.entry) e.now (tracing_of trace.old)) }
{
    match e {
        TypedExpr::Strict {
            form,
            operands,
            ty,
            ..
        } => {
            exprs(trace, around, operands)?;
            strict(trace, around, form, operands.len(), Entry::Tree(ty))
        }
        TypedExpr::Implied { ty, .. } => trace.gives(Entry::Tree(ty)),
        TypedExpr::Local {
            slot,
            narrowed,
            ty,
            ..
        } => loads(trace, around, *slot as usize, *narrowed, Entry::Tree(ty)),
        TypedExpr::And {
            left,
            right,
            ty,
            ..
        } => {
            expr(trace, around, left)?;
            trace.leaves()?;
            expr(trace, around, right)?;
            trace.leaves()?;
            trace.gives(Entry::Tree(ty))
        }
        TypedExpr::Or {
            left,
            right,
            ty,
            ..
        } => {
            expr(trace, around, left)?;
            trace.leaves()?;
            trace.gives(Entry::Tree(ty))?;
            trace.leaves()?;
            expr(trace, around, right)?;
            trace.becomes(Entry::Tree(ty))
        }
        TypedExpr::Conditional {
            condition,
            middle,
            last,
            ty,
            ..
        } => {
            expr(trace, around, condition)?;
            trace.leaves()?;
            expr(trace, around, middle)?;
            trace.leaves()?;
            expr(trace, around, last)?;
            trace.becomes(Entry::Tree(ty))
        }
        TypedExpr::Elvis {
            own,
            left,
            right,
            ty,
            ..
        } => {
            expr(trace, around, left)?;
            tested(trace, around, *own as usize)?;
            trace.leaves()?;
            expr(trace, around, right)?;
            trace.leaves()?;
            loads(trace, around, *own as usize, true, Entry::Tree(ty))
        }
        TypedExpr::Check {
            own,
            operand,
            ty,
            ..
        } => {
            expr(trace, around, operand)?;
            tested(trace, around, *own as usize)?;
            trace.leaves()?;
            loads(trace, around, *own as usize, true, Entry::Error)?;
            trace.takes(1, Entry::Tree(ty))?;
            trace.leaves()?;
            loads(trace, around, *own as usize, true, Entry::Tree(ty))
        }
        TypedExpr::Trap { operand, ty, .. } => {
            trace.place()?;
            expr(trace, around, operand)?;
            trace.place()?;
            trace.place()?;
            trace.becomes(Entry::Error)?;
            trace.place()?;
            trace.becomes(Entry::Tree(ty))
        }
        TypedExpr::Function {
            function: f,
            ty,
            ..
        } => function(trace, around, f, ty),
        TypedExpr::Parens { inner, ty, .. } => {
            expr(trace, around, inner)?;
            trace.becomes(Entry::Tree(ty))
        }
    }
}

/// What expressions tell, one after another.
#[cycle(expr)]
pub fn exprs<'a>(
    trace: &mut Trace<'a>,
    around: Around<'a>,
    es: &'a [TypedExpr],
) -> Result<(), Memory>
    ensures { OnOk result (tracing_of trace.new ≡ exprs_traced (known_of around.entry) es.now (tracing_of trace.old)) }
{
    for e in es {
        expr(trace, around, e)?;
    }
    Ok(())
}

/// An expression, and a command that takes what it gives.
pub fn taken<'a>(trace: &mut Trace<'a>, around: Around<'a>, e: &'a TypedExpr) -> Result<(), Memory>
    ensures { OnOk result (tracing_of trace.new ≡ taken_of (known_of around.entry) e.now (tracing_of trace.old)) }
{
    expr(trace, around, e)?;
    trace.leaves()
}
