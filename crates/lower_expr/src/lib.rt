//! The lowering of expressions and actions: what each adds to code that is being made.
//!
//! - [`Draft`] and [`Step`]: code that is being made, whose commands name labels where code names places; [`Ways`], the labels
//!   of ways that part.
//! - [`expr`] and [`exprs`]: what expressions add; [`gets`], what a local variable adds.
//! - [`strict`], [`operator`] and [`perform`]: what constructs add that evaluate all their operands.
//!
//! `specs/Drafts.antt` says which making of the definitions a draft holds. That what is added stands for the tree is a law of
//! `lower_model`.
#![tactic(auto)]

mod constructs;
mod draft;
mod lower_expr;

pub use constructs::{operator, perform, strict};
pub use draft::{Draft, Step, Ways};
pub use lower_expr::{expr, exprs, gets};
