//! Statements that read variables as declared.
#![tactic(auto)]

ghost use Rattle.std.specs.Prelude.{OnOk};
ghost use Rattle.std.specs.List.{AllZip};
ghost use Rattle.typed_tree.specs.SharedTypes.{sem_of};
ghost use Rattle.declared_reads.specs.Declared.{IsAnything, IsBare, IsBareSource, IsBareStmt, IsBareTarget};
ghost use Rattle.bare_packages.specs.Parts.{IsBareClause, IsBareResult};

use crate::exprs::{expr, exprs};
use bal_base::Memory;
use std::alloc::Global;
use typed_tree::{SharedTy, Source, TypedClause, TypedExpr, TypedStmt, UpdateTarget};

/// The expression in the box reads variables as declared.
pub fn boxed(alloc: Global, any: &SharedTy, e: &mut Box<TypedExpr>) -> Result<(), Memory>
    requires { IsAnything (sem_of any.now) }
    ensures { OnOk result (IsBare e.old.value e.new.value) }
{
    expr(alloc, any, e)
}

/// The value that is returned reads variables as declared.
fn returned(alloc: Global, any: &SharedTy, value: &mut Option<Box<TypedExpr>>) -> Result<(), Memory>
    requires { IsAnything (sem_of any.now) }
    ensures { OnOk result (IsBareResult value.old value.new) }
{
    match value {
        Some(e) => boxed(alloc, any, e),
        None => Ok(()),
    }
}

/// What is assigned to reads variables as declared.
fn target(alloc: Global, any: &SharedTy, t: &mut UpdateTarget) -> Result<(), Memory>
    requires { IsAnything (sem_of any.now) }
    ensures { OnOk result (IsBareTarget t.old t.new) }
{
    match t {
        UpdateTarget::Local {
            slot: _slot,
            narrowed,
            ty: _ty,
        } => {
            *narrowed = false;
            Ok(())
        }
        UpdateTarget::Variable(_) => Ok(()),
        UpdateTarget::Member {
            own: _own,
            read: _read,
            container,
            key,
            ty: _ty,
        } => {
            boxed(alloc, any, container)?;
            boxed(alloc, any, key)
        }
    }
}

/// What the loop goes through reads variables as declared.
fn source(alloc: Global, any: &SharedTy, s: &mut Source) -> Result<(), Memory>
    requires { IsAnything (sem_of any.now) }
    ensures { OnOk result (IsBareSource s.old s.new) }
{
    match s {
        Source::Range {
            own: _own,
            end: _end,
            from,
            to,
        } => {
            boxed(alloc, any, from)?;
            boxed(alloc, any, to)
        }
        Source::List { own: _own, list } => boxed(alloc, any, list),
    }
}

/// The statement reads variables as declared.
#[cycle(stmt)]
pub fn stmt(alloc: Global, any: &SharedTy, s: &mut TypedStmt) -> Result<(), Memory>
    requires { IsAnything (sem_of any.now) }
    ensures { OnOk result (IsBareStmt s.old s.new) }
{
    match s {
        TypedStmt::Set { value, at: _at, .. } => boxed(alloc, any, value),
        TypedStmt::Perform {
            operands,
            at: _at,
            ..
        } => exprs(alloc, any, operands),
        TypedStmt::Update {
            target: to,
            op: _op,
            value,
            at: _at,
        } => {
            target(alloc, any, to)?;
            boxed(alloc, any, value)
        }
        TypedStmt::If {
            condition,
            first,
            second,
            at: _at,
        } => {
            boxed(alloc, any, condition)?;
            stmts(alloc, any, first)?;
            stmts(alloc, any, second)
        }
        TypedStmt::While {
            condition,
            body,
            at: _at,
        } => {
            boxed(alloc, any, condition)?;
            stmts(alloc, any, body)
        }
        TypedStmt::Foreach {
            source: from,
            body,
            at: _at,
            ..
        } => {
            source(alloc, any, from)?;
            stmts(alloc, any, body)
        }
        TypedStmt::Match {
            subject,
            clauses: rows,
            at: _at,
            ..
        } => {
            boxed(alloc, any, subject)?;
            clauses(alloc, any, rows)
        }
        TypedStmt::Return { value, at: _at } => returned(alloc, any, value),
        TypedStmt::Block {
            stmts: body,
            at: _at,
        } => stmts(alloc, any, body),
        TypedStmt::Break { .. } => Ok(()),
        TypedStmt::Continue { .. } => Ok(()),
    }
}

/// Each of the statements reads variables as declared.
#[cycle(stmt)]
pub fn stmts(alloc: Global, any: &SharedTy, ss: &mut Vec<TypedStmt>) -> Result<(), Memory>
    requires { IsAnything (sem_of any.now) }
    ensures { OnOk result (AllZip IsBareStmt ss.old.items ss.new.items) }
{
    all(alloc, any, ss.as_mut_slice())
}

#[cycle(stmt)]
fn all(alloc: Global, any: &SharedTy, ss: &mut [TypedStmt]) -> Result<(), Memory>
    requires { IsAnything (sem_of any.now) }
    ensures { OnOk result (AllZip IsBareStmt ss.old ss.new) }
{
    for s in ss.iter_mut() {
        stmt(alloc, any, s)?;
    }
    Ok(())
}

/// Each of the clauses reads variables as declared.
#[cycle(stmt)]
fn clauses(alloc: Global, any: &SharedTy, cs: &mut Vec<TypedClause>) -> Result<(), Memory>
    requires { IsAnything (sem_of any.now) }
    ensures { OnOk result (AllZip IsBareClause cs.old.items cs.new.items) }
{
    rows(alloc, any, cs.as_mut_slice())
}

#[cycle(stmt)]
fn rows(alloc: Global, any: &SharedTy, cs: &mut [TypedClause]) -> Result<(), Memory>
    requires { IsAnything (sem_of any.now) }
    ensures { OnOk result (AllZip IsBareClause cs.old cs.new) }
{
    for c in cs.iter_mut() {
        clause(alloc, any, c)?;
    }
    Ok(())
}

/// The clause reads variables as declared.
#[cycle(stmt)]
fn clause(alloc: Global, any: &SharedTy, c: &mut TypedClause) -> Result<(), Memory>
    requires { IsAnything (sem_of any.now) }
    ensures { OnOk result (IsBareClause c.old c.new) }
{
    stmts(alloc, any, &mut c.stmts)
}
