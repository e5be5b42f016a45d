//! Which units of a code can be called as values, told once for a code.
//!
//! - [`callable_units`]: for each unit, whether function values and futures of it can be called.
//!
//! `specs/Calling.antt` says what the table tells; what can be called is said in `stack_code`.
#![tactic(auto)]

mod callable;
mod marks;

pub use callable::callable_units;
