//! Which files of a folder make a package.
//!
//! - [`module_of`]: the module of the file with a name: `X.bal` is one of the default module, `modules/M/X.bal` one of the module M.
//! - [`Listing`]: the source files among those that were listed, in the order of their names, and the manifest.
//!
//! `specs/Names.antt` says which names are those of source files, and `specs/Listings.antt` which files are read.
#![tactic(auto)]

mod listing;
mod names;

pub use listing::{Found, Listing};
pub use names::module_of;
