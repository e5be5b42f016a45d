//! What the imports of a package name, and the order of its modules.
//!
//! - [`Home`]: a package's organisation and its modules, as imports name them; [`Home::target`], what an import names.
//! - [`first_repeat`], [`first_unknown`]: where the imports of a file are refused.
//! - [`Home::add_imports`]: which modules imports name.
//! - [`Linked`]: a package that is put together, as imports name its modules; [`Linked::target`], what an import names there.
//! - [`targets_are_kept`]: the law that a package names its modules as the home from which it is made.
//! - [`prefix`]: by which prefix a file names what an import names.
//! - [`least_cycle`]: the cycle of modules that a refusal shows, if they import one another in one.
//! - [`module_order`]: the modules, each behind those that it imports.
//!
//! `specs/Imports.antt` says what an import names, `specs/InPackage.antt` what it names in a package that is put together,
//! `specs/Repeats.antt` which prefix is a repeat, `specs/Cycles.antt` which cycle is shown, and `specs/Order.antt` what the order is.
//! Words that serve the walk alone stand in `specs/inner/`.
#![tactic(auto)]

mod cycles;
mod in_package;
mod laws;
mod order;
mod repeats;
mod targets;

pub use cycles::least_cycle;
pub use in_package::Linked;
pub use laws::targets_are_kept;
pub use order::module_order;
pub use repeats::{first_repeat, prefix};
pub use targets::{Home, Target, first_unknown};
