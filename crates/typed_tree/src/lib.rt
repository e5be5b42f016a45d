//! Typed trees: a program as the checkers leave it, with everything resolved. There is a typed node for each node
//! of the grammar that is evaluated, parentheses too, and each has its place; each expression and action has
//! its type, each variable its slot or number, each constructor its atom.
//!
//! - [`SharedTy`]: a type that several nodes have.
//! - [`TypedExpr`]: expressions and actions. The operators of a construct that evaluates all its operands from
//!   left to right are one variant, whose [`StrictForm`] names the construct: with [`Operator`], [`Read`],
//!   [`Callee`] and [`Peer`].
//! - [`AnonymousFunction`] and [`Captured`]: what stands inside an expression.
//! - [`TypedStmt`]: statements, with [`PerformForm`], [`UpdateTarget`], [`Source`], [`TypedClause`] and
//!   [`TypedPattern`].
//! - [`TypedUnit`], [`TypedFunction`], [`TypedBody`] and [`TypedWorker`]: functions and their workers.
//! - [`TypedPackage`], [`ModuleVariable`], [`Initialiser`] and [`Initial`]: packages.
//! - [`EventKind`] and [`SeenEvent`]: the events of workers; [`Plan`] and [`Pair`]: which of them are paired.
//! - [`skeleton`], [`skeleton_of_body`]: the events of a function by its syntax alone.
//! - [`nodes`]: how many nodes a package has.
//!
//! `specs/Skeleton.antt` says which events a function has, `specs/Nodes.antt` which nodes a package has.
#![tactic(auto)]

mod counting;
mod event;
mod expr;
mod form;
mod package;
mod seeing;
mod stmt;
mod unit;

pub use counting::nodes;
pub use event::{EventKind, Pair, Pairs, Plan, SeenEvent, SeenEvents};
pub use expr::{AnonymousFunction, TypedExpr};
pub use form::{Callee, Operator, Peer, Read, StrictForm};
pub use package::{Initial, Initialiser, ModuleVariable, TypedPackage};
pub use seeing::{skeleton, skeleton_of_body};
pub use stmt::{PerformForm, RangeEnd, Source, TypedClause, TypedPattern, TypedStmt, UpdateTarget};
pub use unit::{Captured, SharedTy, TypedBody, TypedFunction, TypedUnit, TypedWorker};
