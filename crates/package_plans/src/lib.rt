//! The plans of a package's functions, or the first fault of their workers: [`plan_package`].
//!
//! What a plan is, and which fault of a function comes first, stands in `worker_pairing`; `specs/Planned.antt` says it of all
//! functions of a package.
#![tactic(auto)]

mod defined;
mod planning;

pub use planning::{PackagePlans, plan_package};
