//! Which packages ask for input.
//!
//! - [`calls_readln`]: whether `io:readln` is called anywhere in a package.
//!
//! `specs/Calls.antt` says which calls of the library stand in a package.
#![tactic(auto)]

mod calls;

pub use calls::calls_readln;
