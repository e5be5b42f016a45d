//! A type as an operand.

use super::Walk;
use bal_base::Place;
use bal_tree::{IntersectionType, Literal, PostfixType, PrimaryType, TypeTree};
use std::mem;

impl Walk {
    /// Closes a type.
    pub fn close_type(&mut self, t: &mut TypeTree) {
        if is_primary(t) {
            return;
        }
        let at = t.place();
        let whole = mem::replace(t, TypeTree::Intersection(nothing(at)));
        *t = TypeTree::Intersection(IntersectionType::Postfix(self.closed_type(whole, at)));
    }

    /// Closes a type without a union.
    pub fn close_intersection(&mut self, t: &mut IntersectionType) {
        if is_primary_intersection(t) {
            return;
        }
        let at = t.place();
        let whole = TypeTree::Intersection(mem::replace(t, nothing(at)));
        *t = IntersectionType::Postfix(self.closed_type(whole, at));
    }

    /// Closes a type without an operator.
    pub fn close_suffixed(&mut self, t: &mut PostfixType) {
        if is_primary_suffixed(t) {
            return;
        }
        let at = t.place();
        let whole = IntersectionType::Postfix(mem::replace(t, no_suffix(at)));
        *t = self.closed_type(TypeTree::Intersection(whole), at);
    }

    /// `(T)`
    fn closed_type(&mut self, t: TypeTree, at: Place) -> PostfixType {
        match Box::new(self.alloc, t) {
            Ok(inner) => PostfixType::Primary(PrimaryType::Parens { inner, at }),
            Err(_) => {
                self.lacks_memory = true;
                no_suffix(at)
            }
        }
    }
}

fn is_primary(t: &TypeTree) -> bool {
    match t {
        TypeTree::Intersection(t) => is_primary_intersection(t),
        TypeTree::Union { .. } => false,
    }
}

fn is_primary_intersection(t: &IntersectionType) -> bool {
    match t {
        IntersectionType::Postfix(t) => is_primary_suffixed(t),
        IntersectionType::Both { .. } => false,
    }
}

fn is_primary_suffixed(t: &PostfixType) -> bool {
    matches!(t, PostfixType::Primary(_))
}

/// A type that stands where one was taken out.
fn nothing(at: Place) -> IntersectionType {
    IntersectionType::Postfix(no_suffix(at))
}

fn no_suffix(at: Place) -> PostfixType {
    PostfixType::Primary(PrimaryType::Literal(Literal::Nil { at }))
}
