//! Files and definitions.

use super::Walk;
use bal_tree::{Body, Def, FileTree, FunctionDef, Worker};

impl Walk {
    /// Goes through a file.
    pub fn in_file(&mut self, f: &mut FileTree) {
        for d in f.defs.iter_mut() {
            self.in_def(d);
        }
    }

    fn in_def(&mut self, d: &mut Def) {
        match d {
            Def::Type(d) => self.in_type(&mut d.ty),
            Def::Const(d) => self.in_type_if(&mut d.ty),
            Def::Variable(d) => {
                self.in_type(&mut d.ty);
                self.in_expr(&mut d.value)
            }
            Def::Function(d) => self.in_function(d),
        }
    }

    fn in_function(&mut self, d: &mut FunctionDef) {
        self.in_params(&mut d.params);
        self.in_type_if(&mut d.result);
        self.in_body(&mut d.body)
    }

    fn in_body(&mut self, b: &mut Body) {
        match b {
            Body::Block {
                stmts,
                workers,
                rest,
                ..
            } => {
                self.in_stmts(stmts);
                self.in_workers(workers);
                self.in_stmts(rest)
            }
            Body::Expr { value, .. } => self.in_expr(value),
        }
    }

    fn in_workers(&mut self, workers: &mut [Worker]) {
        for w in workers.iter_mut() {
            self.in_type_if(&mut w.result);
            self.in_block(&mut w.body);
        }
    }
}
