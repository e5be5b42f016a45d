//! The names that statements use.
#![tactic(auto, using(crate::proofs::Gathering::in_stmts))]

ghost use Rattle.std.specs.Prelude.{◌≡◌, IfOk, OnOk, map};
ghost use Rattle.typed_tree.specs.Listed.{if_there, joined, members as members_of, run};
ghost use Rattle.tree_places.specs.Gathered.{gather};
ghost use Rattle.tree_places.specs.UsedInExprs.{local_name};
ghost use Rattle.tree_places.specs.UsedInStmts.{used_in_action, used_in_block, used_in_clause, used_in_else, used_in_if, used_in_member_of_wait, used_in_pattern, used_in_range, used_in_rhs, used_in_stmt, used_in_stmts, used_in_target};

use crate::gathered::{WordList, gather_local};
use crate::used_in_exprs::{call, expr, postfix};
use bal_base::Memory;
use bal_tree::{
    Action, Block, Clause, Else, IfStmt, Pattern, QualifiedName, Range, Rhs, Stmt, Target,
    WaitMember, Word,
};
use std::alloc::Global;

/// The names without a prefix that the statements use, with their places, in the order of the text, each as often as it stands there.
pub fn names_in_stmts(alloc: Global, ss: &[Stmt]) -> Result<WordList, Memory>
    ensures { IfOk result (λ names. names ≡ members_of (used_in_stmts ss.now)) }
{
    let mut names = Vec::new(alloc);
    stmts(&mut names, ss)?;
    Ok(WordList::of(names))
}

fn waited(names: &mut Vec<Word>, qs: &[QualifiedName]) -> Result<(), Memory>
    ensures { OnOk result (names.new.items ≡ run gather (joined (map local_name qs.now)) names.old.items) }
{
    for q in qs {
        gather_local(names, q)?;
    }
    Ok(())
}

fn waited_members(names: &mut Vec<Word>, ms: &[WaitMember]) -> Result<(), Memory>
    ensures { OnOk result (names.new.items ≡ run gather (joined (map used_in_member_of_wait ms.now)) names.old.items) }
{
    for m in ms {
        gather_local(names, &m.name)?;
    }
    Ok(())
}

fn action(names: &mut Vec<Word>, a: &Action) -> Result<(), Memory>
    ensures { OnOk result (names.new.items ≡ run gather (used_in_action a.now) names.old.items) }
{
    match a {
        Action::Prefix { action: a, .. } => action(names, a),
        Action::Start { call: e, .. } => call(names, e),
        Action::WaitAny { names: qs, .. } => waited(names, qs),
        Action::WaitAll { members, .. } => waited_members(names, members),
        Action::Flush { .. } | Action::Receive { .. } => Ok(()),
        Action::Send { value, .. } | Action::SyncSend { value, .. } => expr(names, value),
    }
}

fn rhs(names: &mut Vec<Word>, r: &Rhs) -> Result<(), Memory>
    ensures { OnOk result (names.new.items ≡ run gather (used_in_rhs r.now) names.old.items) }
{
    match r {
        Rhs::Expr(e) => expr(names, e),
        Rhs::Action(a) => action(names, a),
    }
}

fn rhs_if(names: &mut Vec<Word>, r: &Option<Rhs>) -> Result<(), Memory>
    ensures { OnOk result (names.new.items ≡ run gather (if_there used_in_rhs r.now) names.old.items) }
{
    match r {
        Some(r) => rhs(names, r),
        None => Ok(()),
    }
}

fn target(names: &mut Vec<Word>, t: &Target) -> Result<(), Memory>
    ensures { OnOk result (names.new.items ≡ run gather (used_in_target t.now) names.old.items) }
{
    match t {
        Target::Name(n) => gather_local(names, n),
        Target::Index { base, index, .. } => {
            postfix(names, base)?;
            expr(names, index)
        }
        Target::Field { base, .. } => postfix(names, base),
    }
}

fn range_if(names: &mut Vec<Word>, r: &Option<Range>) -> Result<(), Memory>
    ensures { OnOk result (names.new.items ≡ run gather (if_there used_in_range r.now) names.old.items) }
{
    match r {
        Some(r) => expr(names, &r.end),
        None => Ok(()),
    }
}

fn pattern(names: &mut Vec<Word>, p: &Pattern) -> Result<(), Memory>
    ensures { OnOk result (names.new.items ≡ run gather (used_in_pattern p.now) names.old.items) }
{
    match p {
        Pattern::Any { .. } | Pattern::Value(_) => Ok(()),
        Pattern::Name(n) => gather_local(names, n),
    }
}

fn patterns(names: &mut Vec<Word>, ps: &[Pattern]) -> Result<(), Memory>
    ensures { OnOk result (names.new.items ≡ run gather (joined (map used_in_pattern ps.now)) names.old.items) }
{
    for p in ps {
        pattern(names, p)?;
    }
    Ok(())
}

#[cycle(stmts)]
fn stmts(names: &mut Vec<Word>, ss: &[Stmt]) -> Result<(), Memory>
    ensures { OnOk result (names.new.items ≡ run gather (used_in_stmts ss.now) names.old.items) }
{
    for s in ss {
        stmt(names, s)?;
    }
    Ok(())
}

#[cycle(stmts)]
fn block(names: &mut Vec<Word>, b: &Block) -> Result<(), Memory>
    ensures { OnOk result (names.new.items ≡ run gather (used_in_block b.now) names.old.items) }
{
    stmts(names, &b.stmts)
}

#[cycle(stmts)]
fn stmt(names: &mut Vec<Word>, s: &Stmt) -> Result<(), Memory>
    ensures { OnOk result (names.new.items ≡ run gather (used_in_stmt s.now) names.old.items) }
{
    match s {
        Stmt::Local { value, .. } | Stmt::Ignore { value, .. } => rhs(names, value),
        Stmt::Rhs { rhs: value, .. } => rhs(names, value),
        Stmt::Assign {
            target: to,
            value,
            ..
        } => {
            target(names, to)?;
            rhs(names, value)
        }
        Stmt::If(s) => if_stmt(names, s),
        Stmt::While {
            condition,
            body,
            ..
        } => {
            expr(names, condition)?;
            block(names, body)
        }
        Stmt::Foreach {
            from,
            range,
            body,
            ..
        } => {
            expr(names, from)?;
            range_if(names, range)?;
            block(names, body)
        }
        Stmt::Match {
            value,
            clauses: rows,
            ..
        } => {
            expr(names, value)?;
            clauses(names, rows)
        }
        Stmt::Return { value, .. } => rhs_if(names, value),
        Stmt::Panic { value, .. } => expr(names, value),
        Stmt::Break { .. } | Stmt::Continue { .. } => Ok(()),
        Stmt::Block(b) => block(names, b),
    }
}

#[cycle(stmts)]
fn if_stmt(names: &mut Vec<Word>, s: &IfStmt) -> Result<(), Memory>
    ensures { OnOk result (names.new.items ≡ run gather (used_in_if s.now) names.old.items) }
{
    expr(names, &s.condition)?;
    block(names, &s.then)?;
    match &s.otherwise {
        None => Ok(()),
        Some(e) => otherwise(names, e),
    }
}

#[cycle(stmts)]
fn otherwise(names: &mut Vec<Word>, e: &Else) -> Result<(), Memory>
    ensures { OnOk result (names.new.items ≡ run gather (used_in_else e.now) names.old.items) }
{
    match e {
        Else::If(s) => if_stmt(names, s),
        Else::Block(b) => block(names, b),
    }
}

#[cycle(stmts)]
fn clauses(names: &mut Vec<Word>, cs: &[Clause]) -> Result<(), Memory>
    ensures { OnOk result (names.new.items ≡ run gather (joined (map used_in_clause cs.now)) names.old.items) }
{
    for c in cs {
        clause(names, c)?;
    }
    Ok(())
}

#[cycle(stmts)]
fn clause(names: &mut Vec<Word>, c: &Clause) -> Result<(), Memory>
    ensures { OnOk result (names.new.items ≡ run gather (used_in_clause c.now) names.old.items) }
{
    patterns(names, &c.patterns)?;
    block(names, &c.body)
}
