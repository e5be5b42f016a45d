//! Workers of code that wait for one another, as a law: where code is lowered from a package in which each function has a plan for
//! its workers, none of them ever wait in a ring.
//!
//! It is stated in `specs/Laws` and proved of any two machines of which the second follows the first: workers of the second that
//! wait are workers of the first that wait.
#![tactic(auto)]

mod laws;

pub use laws::lowered_code_never_rings;
