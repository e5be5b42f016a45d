//! The modules of a package, put together in an order.
//!
//! - [`modules`]: the modules, each with the files and the imports that it has.
//!
//! `specs/Making.antt` says what they are.
#![tactic(auto)]

mod making;

pub use making::modules;
