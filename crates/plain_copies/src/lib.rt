//! Copies of values, as plain programs over what a run holds: each mutable structure that a value reaches is copied once, level
//! by level, and what is immutable is shared.
//!
//! - [`copied`]: a copy of a value, whose structures are mutable or are not; `specs/Copied.antt`, `IsCopied`.
//! - [`clones`] and [`freezes`]: what `clone` and `cloneReadOnly` come to.
//! - [`cells_of`] and [`make_all`]: the cells of structures, and structures that are made together.
#![tactic(auto)]

mod cells;
mod cloning;
mod copies;
mod reaching;

pub use cells::{cells_of, make_all};
pub use cloning::{clones, copied, freezes};
