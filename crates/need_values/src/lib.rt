//! Needs of expressions, statements and packages as values.
//!
//! - [`ValueNeed`], [`OperatorNeed`], [`MemberNeed`], [`StructureNeed`], [`CallNeed`], [`UnitNeed`], [`ActionNeed`], [`StmtNeed`],
//!   [`LoopNeed`]: needs, an enum a topic; `specs/Meant.antt` says which need each is.
//! - [`Meets`]: whoever meets such needs; [`ByNeed`]: it, as a `MeetsExprs` and a `MeetsStmts`, over which the walks of `expr_needs` and
//!   `stmt_needs` go.
#![tactic(auto)]

mod actions;
mod by_need;
mod calls;
mod exprs;
mod loops;
mod meets;
mod members;
mod operators;
mod statements;
mod stmts;
mod structures;
mod units;
mod values;

pub use actions::ActionNeed;
pub use by_need::ByNeed;
pub use calls::CallNeed;
pub use loops::LoopNeed;
pub use meets::Meets;
pub use members::MemberNeed;
pub use operators::OperatorNeed;
pub use statements::StmtNeed;
pub use structures::StructureNeed;
pub use units::UnitNeed;
pub use values::ValueNeed;
