//! What expressions and actions need of a checker, a line for each construct, and the walk that meets it in the order of the text.
//!
//! - `specs/Needs.antt` lists the needs, one step of checking each, for all constructs of the language.
//! - `specs/ExprTable.antt` has the line of each expression, `specs/Operators.antt` what operators need by their family ([`Family`]),
//!   and `specs/ActionTable.antt` the line of each action. A line is read by what is expected of the construct where it stands
//!   ([`Expected`]), and lists its needs in order; kinds of values are named by [`Kind`].
//! - [`MeetsExprs`]: whoever meets needs, a call for each, whatever they mean.
//! - [`expr`], [`postfix`], [`rhs`]: the walk, over any of these. [`wanted`], [`wanted_rhs`], [`of_kind`], [`condition`], [`accessed`]
//!   and [`indexed`] are the walk of what then has to be of the wanted type, of a kind, a condition, or what a member is taken of or by.
//! - [`prefixed`], [`left`], [`right`], [`made`], [`begins_anonymous`]: what the walk meets beside operands.
//! - [`family_of`], [`left_expects`], [`right_expects`], [`prefix_expects`], [`expectation`]: what operators are alike in, and what is
//!   expected of operands.
//! - [`place`], [`postfix_place`], [`rhs_place`], [`call_place`], [`primary_place`]: where a tree begins, as the table reads it.
//!
//! A walk takes no memory of its own, and steps once through its tree: its cost grows with the nodes of the tree, its frames with how
//! deep they are nested.
#![tactic(auto)]

mod actions;
mod expected;
mod exprs;
mod kind;
mod meets;
mod operators;
mod reading;
mod steps;

pub use actions::{rhs, rhs_place, wanted_rhs};
pub use expected::Expected;
pub use exprs::{accessed, condition, expr, indexed, of_kind, postfix, wanted};
pub use kind::{Kind, expectation};
pub use meets::MeetsExprs;
pub use operators::{Family, family_of, left_expects, prefix_expects, right_expects};
pub use reading::{call_place, place, postfix_place, primary_place};
pub use steps::{begins_anonymous, left, made, prefixed, right};
