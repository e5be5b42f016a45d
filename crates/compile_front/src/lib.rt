//! The front of a compiler: from a package that was read to its typed package, or to the first fault.
//!
//! - [`accept`]: what its names stand for and its typed package, which keeps its promises of isolation ([`Accepted`]); or the first fault
//!   ([`Answered`]).
//! - [`has_main`]: whether a package has a function to begin with.
//!
//! `specs/Front.antt` says what the front of a package comes to, `specs/Mains.antt` which packages
//! have a function to begin with, and `specs/Codes.antt` which codes its faults have.
#![tactic(auto)]

mod accepting;
mod codes;
mod mains;

pub use accepting::{Accepted, Answered, accept};
pub use mains::has_main;
