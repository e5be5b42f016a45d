//! Which files of a folder make a package, found in the folder.
//!
//! - [`list`]: the source files and the manifest among the folder's files.
//! - [`front`]: the bytes of one of its files, as far as one byte more than a file may have.
//!
//! `specs/Files.antt` says which files a folder has.
#![tactic(auto)]

mod finding;

pub use finding::{front, list};
