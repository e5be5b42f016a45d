//! Packages that don't wait for ever, as laws: in a package in which each function has a plan for its workers none of these ever wait in
//! a ring; and without `start` no run of it stalls, but all its strands end.
//!
//! The definitions are files of `specs/`:
//!
//! - `Starting`: packages without `start`.
//! - `Cases`, worked cases; `Laws`.
//!
//! Beside them stand [`definitions_come_to_cases`] and the law, [`kept_packages_never_stall`].
#![tactic(auto)]

mod cases;
mod laws;

pub use cases::definitions_come_to_cases;
pub use laws::kept_packages_never_stall;
