//! An expression as an operand.

use super::Walk;
use bal_base::Place;
use bal_tree::{Expr, Literal, Postfix, Primary};
use std::mem;

impl Walk {
    /// Closes an expression.
    pub fn close_expr(&mut self, e: &mut Expr) {
        if matches!(e, Expr::Postfix(Postfix::Primary(_))) {
            return;
        }
        let at = e.place();
        let whole = mem::replace(e, Expr::Postfix(nothing(at)));
        *e = Expr::Postfix(self.closed_expr(whole, at));
    }

    /// Closes an expression without an operator.
    pub fn close_suffixed_expr(&mut self, e: &mut Postfix) {
        if matches!(e, Postfix::Primary(_)) {
            return;
        }
        let at = e.place();
        let whole = mem::replace(e, nothing(at));
        *e = self.closed_expr(Expr::Postfix(whole), at);
    }

    /// `(e)`
    fn closed_expr(&mut self, e: Expr, at: Place) -> Postfix {
        match Box::new(self.alloc, e) {
            Ok(inner) => Postfix::Primary(Primary::Parens { inner, at }),
            Err(_) => {
                self.lacks_memory = true;
                nothing(at)
            }
        }
    }
}

/// An expression that stands where one was taken out.
fn nothing(at: Place) -> Postfix {
    Postfix::Primary(Primary::Literal(Literal::Nil { at }))
}
