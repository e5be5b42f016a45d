//! The parts of expressions.

use super::Walk;
use bal_tree::{Call, Detail, Expr, Key, Member, Postfix, Primary};

impl Walk {
    /// Goes through an expression.
    #[cycle(exprs)]
    pub fn in_expr(&mut self, e: &mut Expr) {
        match e {
            Expr::Postfix(e) => self.in_suffixed_expr(e),
            Expr::Prefix { operand, .. } => self.operand(operand),
            Expr::Cast { ty, operand, .. } => {
                self.in_type(ty);
                self.operand(operand)
            }
            Expr::Binary { left, right, .. } => {
                self.operand(left);
                self.operand(right)
            }
            Expr::TypeTest { operand, ty, .. } => {
                self.operand(operand);
                self.type_operand(ty)
            }
            Expr::Conditional {
                condition,
                middle,
                last,
                ..
            } => {
                self.operand(condition);
                self.operand(middle);
                self.operand(last)
            }
            Expr::Trap { operand, .. } => self.operand(operand),
            Expr::Function {
                params,
                result,
                value,
                ..
            } => {
                self.in_params(params);
                self.type_operand(result);
                self.operand(value)
            }
        }
    }

    /// Goes through an operand.
    #[cycle(exprs)]
    pub fn operand(&mut self, e: &mut Expr) {
        self.in_expr(e);
        self.close_expr(e)
    }

    /// Goes through what has a suffix.
    #[cycle(exprs)]
    pub fn base(&mut self, e: &mut Postfix) {
        self.in_suffixed_expr(e);
        self.close_suffixed_expr(e)
    }

    #[cycle(exprs)]
    fn in_suffixed_expr(&mut self, e: &mut Postfix) {
        match e {
            Postfix::Primary(e) => self.in_primary(e),
            Postfix::Call(e) => self.in_call(e),
            Postfix::Field { base, .. } => self.base(base),
            Postfix::OptionalField { base, .. } => self.base(base),
            Postfix::Index { base, index, .. } => {
                self.base(base);
                self.in_expr(index)
            }
        }
    }

    /// Goes through a call.
    #[cycle(exprs)]
    pub fn in_call(&mut self, e: &mut Call) {
        match e {
            Call::Function { callee, args, .. } => {
                self.base(callee);
                self.in_exprs(args)
            }
            Call::Method { receiver, args, .. } => {
                self.base(receiver);
                self.in_exprs(args)
            }
        }
    }

    #[cycle(exprs)]
    fn in_primary(&mut self, e: &mut Primary) {
        match e {
            Primary::Literal(_) | Primary::Name(_) => {}
            Primary::Parens { inner, .. } => self.in_expr(inner),
            Primary::List { items, .. } => self.in_exprs(items),
            Primary::Mapping { members, .. } => self.in_members(members),
            Primary::Error {
                message,
                cause,
                details,
                ..
            } => {
                self.in_expr(message);
                self.in_expr_if(cause);
                self.in_details(details)
            }
        }
    }

    #[cycle(exprs)]
    fn in_expr_if(&mut self, e: &mut Option<Box<Expr>>) {
        match e {
            Some(e) => self.in_expr(e),
            None => {}
        }
    }

    #[cycle(exprs)]
    fn in_exprs(&mut self, exprs: &mut [Expr]) {
        for e in exprs.iter_mut() {
            self.in_expr(e);
        }
    }

    #[cycle(exprs)]
    fn in_members(&mut self, members: &mut [Member]) {
        for m in members.iter_mut() {
            self.in_key(&mut m.key);
            self.in_expr(&mut m.value);
        }
    }

    #[cycle(exprs)]
    fn in_key(&mut self, k: &mut Key) {
        match k {
            Key::Word(_) | Key::Str { .. } => {}
            Key::Computed { value, .. } => self.in_expr(value),
        }
    }

    #[cycle(exprs)]
    fn in_details(&mut self, details: &mut [Detail]) {
        for d in details.iter_mut() {
            self.in_expr(&mut d.value);
        }
    }
}
