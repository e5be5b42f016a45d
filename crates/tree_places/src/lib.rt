//! Places and names of syntax trees, for the checkers, and what a walk has to know of statements before it enters them.
//!
//! - [`place_of_expr`] and its kin, [`place_of_stmt`], [`place_of_rhs`], [`place_of_target`]: where a tree begins, as an
//!   equation with a definition by the tree's outermost form (`specs/ExprPlaces.antt`, `specs/StmtPlaces.antt`).
//! - [`name_of_expr`], [`name_of_postfix`]: the name that an expression is (`specs/NameOf.antt`).
//! - [`names_in_expr`], [`names_in_stmts`]: the names that an expression or statements use, with their places
//!   (`specs/UsedInExprs.antt`, `specs/UsedInStmts.antt`), of which a body that captures takes those of variables.
//! - [`names_assigned`]: the names of the variables that statements assign, where they stand (`specs/Assigned.antt`).
//! - [`ends_loop`]: whether a `break` stands in the statements that ends the loop around them (`specs/Breaks.antt`).
#![tactic(auto)]

mod assigned;
mod breaks;
mod expr_places;
mod gathered;
mod name_of;
mod stmt_places;
mod used_in_exprs;
mod used_in_stmts;

pub use assigned::names_assigned;
pub use breaks::ends_loop;
pub use expr_places::{
    place_of_call, place_of_expr, place_of_key, place_of_literal, place_of_postfix,
    place_of_primary,
};
pub use gathered::WordList;
pub use name_of::{name_of_expr, name_of_postfix};
pub use stmt_places::{place_of_action, place_of_rhs, place_of_stmt, place_of_target};
pub use used_in_exprs::names_in_expr;
pub use used_in_stmts::names_in_stmts;
