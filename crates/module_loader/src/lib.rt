//! Packages: from a folder's files to modules with trees.
//!
//! - [`load`]: the package of a folder, or the refusal that is due.
//! - [`LoadFault`]: why a folder makes no package.
//! - [`modules_are_named`]: the law that imports name in such a package what they name among the folders.
//! - [`MOST_FILES`], [`MOST_MODULES`] and [`MOST_PACKAGE_BYTES`]: the limits of a package.
//!
//! `sources` takes down which files are read, `reading` reads them one after another, `imports` finds what is refused of their imports,
//! `linking` which modules they name, and `making` makes the package. `specs/Packages.antt` says which package a folder's files make,
//! `specs/Faults.antt` why they make none, `specs/Targets.antt` what imports name in it, and `specs/Loading.antt` how the folder's count
//! of faults is kept. Words that serve single steps stand in `specs/inner/`.
#![tactic(auto)]

mod faults;
mod imports;
mod laws;
mod limits;
mod linking;
mod loading;
mod making;
mod manifest;
mod naming;
mod reading;
mod sources;

pub use faults::LoadFault;
pub use laws::modules_are_named;
pub use limits::{MOST_FILES, MOST_MODULES, MOST_PACKAGE_BYTES};
pub use loading::load;
