//! The names of the variables that statements assign.
#![tactic(auto, using(crate::proofs::Gathering::in_stmts))]

ghost use Rattle.std.specs.Prelude.{◌≡◌, IfOk, OnOk, map};
ghost use Rattle.typed_tree.specs.Listed.{joined, members as members_of, run};
ghost use Rattle.tree_places.specs.Assigned.{assigned_in_block, assigned_in_clause, assigned_in_else, assigned_in_if, assigned_in_stmt, assigned_in_stmts, assigned_in_target};
ghost use Rattle.tree_places.specs.Gathered.{gather};

use crate::gathered::{WordList, gather_local};
use bal_base::Memory;
use bal_tree::{Block, Clause, Else, IfStmt, Stmt, Target, Word};
use std::alloc::Global;

/// The names of the variables that the statements assign, where they stand, in the order of the text, each as often as it is assigned.
pub fn names_assigned(alloc: Global, ss: &[Stmt]) -> Result<WordList, Memory>
    ensures { IfOk result (λ names. names ≡ members_of (assigned_in_stmts ss.now)) }
{
    let mut names = Vec::new(alloc);
    stmts(&mut names, ss)?;
    Ok(WordList::of(names))
}

fn target(names: &mut Vec<Word>, t: &Target) -> Result<(), Memory>
    ensures { OnOk result (names.new.items ≡ run gather (assigned_in_target t.now) names.old.items) }
{
    match t {
        Target::Name(n) => gather_local(names, n),
        Target::Index { .. } | Target::Field { .. } => Ok(()),
    }
}

#[cycle(stmts)]
fn stmts(names: &mut Vec<Word>, ss: &[Stmt]) -> Result<(), Memory>
    ensures { OnOk result (names.new.items ≡ run gather (assigned_in_stmts ss.now) names.old.items) }
{
    for s in ss {
        stmt(names, s)?;
    }
    Ok(())
}

#[cycle(stmts)]
fn block(names: &mut Vec<Word>, b: &Block) -> Result<(), Memory>
    ensures { OnOk result (names.new.items ≡ run gather (assigned_in_block b.now) names.old.items) }
{
    stmts(names, &b.stmts)
}

#[cycle(stmts)]
fn stmt(names: &mut Vec<Word>, s: &Stmt) -> Result<(), Memory>
    ensures { OnOk result (names.new.items ≡ run gather (assigned_in_stmt s.now) names.old.items) }
{
    match s {
        Stmt::Assign { target: to, .. } => target(names, to),
        Stmt::If(s) => if_stmt(names, s),
        Stmt::While { body, .. } | Stmt::Foreach { body, .. } => block(names, body),
        Stmt::Match { clauses: rows, .. } => clauses(names, rows),
        Stmt::Block(b) => block(names, b),
        Stmt::Local { .. } | Stmt::Ignore { .. } | Stmt::Rhs { .. } => Ok(()),
        Stmt::Return { .. } | Stmt::Panic { .. } => Ok(()),
        Stmt::Break { .. } | Stmt::Continue { .. } => Ok(()),
    }
}

#[cycle(stmts)]
fn if_stmt(names: &mut Vec<Word>, s: &IfStmt) -> Result<(), Memory>
    ensures { OnOk result (names.new.items ≡ run gather (assigned_in_if s.now) names.old.items) }
{
    block(names, &s.then)?;
    match &s.otherwise {
        None => Ok(()),
        Some(e) => otherwise(names, e),
    }
}

#[cycle(stmts)]
fn otherwise(names: &mut Vec<Word>, e: &Else) -> Result<(), Memory>
    ensures { OnOk result (names.new.items ≡ run gather (assigned_in_else e.now) names.old.items) }
{
    match e {
        Else::If(s) => if_stmt(names, s),
        Else::Block(b) => block(names, b),
    }
}

#[cycle(stmts)]
fn clauses(names: &mut Vec<Word>, cs: &[Clause]) -> Result<(), Memory>
    ensures { OnOk result (names.new.items ≡ run gather (joined (map assigned_in_clause cs.now)) names.old.items) }
{
    for c in cs {
        clause(names, c)?;
    }
    Ok(())
}

#[cycle(stmts)]
fn clause(names: &mut Vec<Word>, c: &Clause) -> Result<(), Memory>
    ensures { OnOk result (names.new.items ≡ run gather (assigned_in_clause c.now) names.old.items) }
{
    block(names, &c.body)
}
