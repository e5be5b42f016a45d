//! The modules of a package's source files.
//!
//! - [`modules_of`]: the modules of source files, in the order of their names.
//!
//! `specs/Modules.antt` says which modules they are.
#![tactic(auto)]

mod modules;

pub use modules::modules_of;
