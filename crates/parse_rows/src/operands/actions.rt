//! Actions, and what stands in statements beside blocks.

use super::Walk;
use bal_tree::{Action, Expr, LocalType, Range, Rhs, Target};

impl Walk {
    /// Goes through the right side of an assignment.
    pub fn in_rhs(&mut self, rhs: &mut Rhs) {
        match rhs {
            Rhs::Expr(e) => self.in_expr(e),
            Rhs::Action(a) => self.in_action(a),
        }
    }

    /// Goes through it, if there is one.
    pub fn in_rhs_if(&mut self, rhs: &mut Option<Rhs>) {
        match rhs {
            Some(rhs) => self.in_rhs(rhs),
            None => {}
        }
    }

    /// Goes through an action. What is sent is an operand.
    fn in_action(&mut self, a: &mut Action) {
        match a {
            Action::Prefix { action, .. } => self.in_action(action),
            Action::Start { call, .. } => self.in_call(call),
            Action::WaitAny { .. } | Action::WaitAll { .. } => {}
            Action::Flush { .. } | Action::Receive { .. } => {}
            Action::Send { value, .. } => self.operand(value),
            Action::SyncSend { value, .. } => self.operand(value),
        }
    }

    /// Goes through what is assigned to.
    pub fn in_target(&mut self, target: &mut Target) {
        match target {
            Target::Name(_) => {}
            Target::Index { base, index, .. } => {
                self.base(base);
                self.in_expr(index)
            }
            Target::Field { base, .. } => self.base(base),
        }
    }

    /// Goes through the type of a local variable.
    pub fn in_local_type(&mut self, ty: &mut LocalType) {
        match ty {
            LocalType::Type(t) => self.in_type(t),
            LocalType::Var { .. } => {}
        }
    }

    /// Goes through what a loop goes over.
    pub fn in_range(&mut self, from: &mut Expr, range: &mut Option<Range>) {
        self.in_expr(from);
        match range {
            Some(range) => self.in_expr(&mut range.end),
            None => {}
        }
    }
}
