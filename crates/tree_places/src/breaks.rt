//! Whether statements end the loop around them.
#![tactic(auto, using(crate::proofs::Gathering::in_breaks))]

ghost use Rattle.std.specs.Prelude.{◌≡◌};
ghost use Rattle.std.specs.List.{list_any};
ghost use Rattle.tree_places.specs.Breaks.{block_breaks, clause_breaks, else_breaks, if_breaks, stmt_breaks};

use bal_tree::{Block, Clause, Else, IfStmt, Stmt};

/// Whether a `break` stands in the block that ends the loop around it, and no loop within it. Takes no memory.
#[cycle(stmts)]
pub fn ends_loop(b: &Block) -> bool
    ensures { result ≡ block_breaks b.now }
{
    stmts(&b.stmts)
}

#[cycle(stmts)]
fn stmts(ss: &[Stmt]) -> bool
    ensures { result ≡ list_any stmt_breaks ss.now }
{
    for s in ss {
        if stmt(s) {
            return true;
        }
    }
    false
}

#[cycle(stmts)]
fn stmt(s: &Stmt) -> bool
    ensures { result ≡ stmt_breaks s.now }
{
    match s {
        Stmt::Break { .. } => true,
        Stmt::If(s) => if_stmt(s),
        Stmt::Match { clauses: rows, .. } => clauses(rows),
        Stmt::Block(b) => ends_loop(b),
        Stmt::Local { .. } | Stmt::Assign { .. } | Stmt::Ignore { .. } | Stmt::Rhs { .. } => false,
        Stmt::While { .. } | Stmt::Foreach { .. } => false,
        Stmt::Return { .. } | Stmt::Panic { .. } | Stmt::Continue { .. } => false,
    }
}

#[cycle(stmts)]
fn if_stmt(s: &IfStmt) -> bool
    ensures { result ≡ if_breaks s.now }
{
    if ends_loop(&s.then) {
        return true;
    }
    match &s.otherwise {
        None => false,
        Some(e) => otherwise(e),
    }
}

#[cycle(stmts)]
fn otherwise(e: &Else) -> bool
    ensures { result ≡ else_breaks e.now }
{
    match e {
        Else::If(s) => if_stmt(s),
        Else::Block(b) => ends_loop(b),
    }
}

#[cycle(stmts)]
fn clauses(cs: &[Clause]) -> bool
    ensures { result ≡ list_any clause_breaks cs.now }
{
    for c in cs {
        if clause(c) {
            return true;
        }
    }
    false
}

#[cycle(stmts)]
fn clause(c: &Clause) -> bool
    ensures { result ≡ clause_breaks c.now }
{
    ends_loop(&c.body)
}
