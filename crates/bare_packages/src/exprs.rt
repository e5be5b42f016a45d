//! Expressions that read variables as declared.
#![tactic(auto)]

ghost use Rattle.std.specs.Prelude.{◌≡◌, IfOk, OnOk};
ghost use Rattle.std.specs.List.{AllZip};
ghost use Rattle.typed_tree.specs.SharedTypes.{sem_of};
ghost use Rattle.declared_reads.specs.Declared.{IsAnything, IsBare, IsBareCapture, IsBareFunction};

use bal_base::{Memory, Row};
use std::alloc::Global;
use typed_tree::{AnonymousFunction, Captured, SharedTy, TypedExpr};

/// The same type, with one owner more.
fn shared(t: &SharedTy) -> Result<SharedTy, Memory>
    ensures { IfOk result (λ u. sem_of u ≡ sem_of t.now) }
{
    Ok(t.clone()?)
}

/// The variable, captured as it is declared.
fn capture(c: &Captured) -> Result<Captured, Memory>
    ensures { IfOk result (λ d. IsBareCapture c.now d) }
{
    Ok(Captured {
        slot: c.slot,
        narrowed: false,
        ty: shared(&c.ty)?,
        at: c.at,
    })
}

/// The variables, each captured as it is declared.
fn captured(alloc: Global, cs: &[Captured]) -> Result<Row<Captured>, Memory>
    ensures { IfOk result (λ ds. AllZip IsBareCapture cs.now ds) }
{
    let mut bare = Vec::new(alloc);
    for c in cs {
        bare.push(capture(c)?)?;
    }
    Ok(Row::of(bare))
}

/// The anonymous function captures its variables as they are declared.
fn function(alloc: Global, f: &mut AnonymousFunction) -> Result<(), Memory>
    ensures { OnOk result (IsBareFunction f.old f.new) }
{
    f.captured = captured(alloc, f.captured.as_slice())?;
    Ok(())
}

/// The type is the other one from then on.
fn retype(any: &SharedTy, ty: &mut SharedTy) -> Result<(), Memory>
    ensures { OnOk result (sem_of ty.new ≡ sem_of any.now) }
{
    *ty = shared(any)?;
    Ok(())
}

/// The expression reads variables as declared.
#[cycle(expr)]
pub fn expr(alloc: Global, any: &SharedTy, e: &mut TypedExpr) -> Result<(), Memory>
    requires { IsAnything (sem_of any.now) }
    ensures { OnOk result (IsBare e.old e.new) }
{
    match e {
        TypedExpr::Strict {
            form: _,
            operands,
            ty: _ty,
            at: _at,
        } => exprs(alloc, any, operands),
        TypedExpr::Implied { .. } => Ok(()),
        TypedExpr::Local { narrowed, .. } => {
            *narrowed = false;
            Ok(())
        }
        TypedExpr::And {
            left,
            right,
            ty: _ty,
            at: _at,
        } => {
            expr(alloc, any, left)?;
            expr(alloc, any, right)
        }
        TypedExpr::Or {
            left,
            right,
            ty: _ty,
            at: _at,
        } => {
            expr(alloc, any, left)?;
            expr(alloc, any, right)
        }
        TypedExpr::Conditional {
            condition,
            middle,
            last,
            ty: _ty,
            at: _at,
        } => {
            expr(alloc, any, condition)?;
            expr(alloc, any, middle)?;
            expr(alloc, any, last)
        }
        TypedExpr::Elvis {
            own: _,
            left,
            right,
            ty,
            at: _at,
        } => {
            expr(alloc, any, left)?;
            expr(alloc, any, right)?;
            retype(any, ty)
        }
        TypedExpr::Check {
            panics: _,
            own: _,
            operand,
            ty,
            at: _at,
        } => {
            expr(alloc, any, operand)?;
            retype(any, ty)
        }
        TypedExpr::Trap {
            operand,
            ty: _ty,
            at: _at,
        } => expr(alloc, any, operand),
        TypedExpr::Function {
            function: f,
            value,
            ty: _ty,
            at: _at,
        } => {
            function(alloc, f)?;
            expr(alloc, any, value)
        }
        TypedExpr::Parens {
            inner,
            ty: _ty,
            at: _at,
        } => expr(alloc, any, inner),
    }
}

/// The expressions read variables as declared.
#[cycle(expr)]
pub fn exprs(alloc: Global, any: &SharedTy, es: &mut Vec<TypedExpr>) -> Result<(), Memory>
    requires { IsAnything (sem_of any.now) }
    ensures { OnOk result (AllZip IsBare es.old.items es.new.items) }
{
    all(alloc, any, es.as_mut_slice())
}

/// Each of the expressions reads variables as declared.
#[cycle(expr)]
fn all(alloc: Global, any: &SharedTy, es: &mut [TypedExpr]) -> Result<(), Memory>
    requires { IsAnything (sem_of any.now) }
    ensures { OnOk result (AllZip IsBare es.old es.new) }
{
    for e in es.iter_mut() {
        expr(alloc, any, e)?;
    }
    Ok(())
}
