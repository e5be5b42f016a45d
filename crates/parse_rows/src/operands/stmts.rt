//! The parts of statements.

use super::Walk;
use bal_tree::{Block, Clause, Else, IfStmt, Stmt};

impl Walk {
    /// Goes through statements.
    #[cycle(stmts)]
    pub fn in_stmts(&mut self, stmts: &mut [Stmt]) {
        for s in stmts.iter_mut() {
            self.in_stmt(s);
        }
    }

    /// Goes through a block.
    #[cycle(stmts)]
    pub fn in_block(&mut self, b: &mut Block) {
        self.in_stmts(&mut b.stmts)
    }

    #[cycle(stmts)]
    fn in_stmt(&mut self, s: &mut Stmt) {
        match s {
            Stmt::Local { ty, value, .. } => {
                self.in_local_type(ty);
                self.in_rhs(value)
            }
            Stmt::Assign { target, value, .. } => {
                self.in_target(target);
                self.in_rhs(value)
            }
            Stmt::Ignore { value, .. } => self.in_rhs(value),
            Stmt::Rhs { rhs, .. } => self.in_rhs(rhs),
            Stmt::If(s) => self.in_if(s),
            Stmt::While {
                condition,
                body,
                ..
            } => {
                self.in_expr(condition);
                self.in_block(body)
            }
            Stmt::Foreach {
                ty,
                from,
                range,
                body,
                ..
            } => {
                self.in_local_type(ty);
                self.in_range(from, range);
                self.in_block(body)
            }
            Stmt::Match { value, clauses, .. } => {
                self.in_expr(value);
                self.in_clauses(clauses)
            }
            Stmt::Return { value, .. } => self.in_rhs_if(value),
            Stmt::Panic { value, .. } => self.in_expr(value),
            Stmt::Break { .. } | Stmt::Continue { .. } => {}
            Stmt::Block(b) => self.in_block(b),
        }
    }

    #[cycle(stmts)]
    fn in_if(&mut self, s: &mut IfStmt) {
        self.in_expr(&mut s.condition);
        self.in_block(&mut s.then);
        self.in_else_if(&mut s.otherwise)
    }

    #[cycle(stmts)]
    fn in_else_if(&mut self, e: &mut Option<Box<Else>>) {
        match e {
            Some(e) => self.in_else(e),
            None => {}
        }
    }

    #[cycle(stmts)]
    fn in_else(&mut self, e: &mut Else) {
        match e {
            Else::If(s) => self.in_if(s),
            Else::Block(b) => self.in_block(b),
        }
    }

    #[cycle(stmts)]
    fn in_clauses(&mut self, clauses: &mut [Clause]) {
        for c in clauses.iter_mut() {
            self.in_block(&mut c.body);
        }
    }
}
