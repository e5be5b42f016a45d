//! What the manifest of a package says: its name and its organisation.
//!
//! - [`Manifest`]: a name and an organisation; [`Manifest::without_file`] where there is no manifest.
//! - [`read_manifest`]: what a manifest with these bytes says, or that it is bad.
//!
//! `reading` reads the bytes as a TOML document and finds what it says; `names` tells names from other texts.
//! `specs/Manifests.antt` says what is promised.
#![tactic(auto)]

mod names;
mod reading;

pub use reading::{Manifest, read_manifest};
