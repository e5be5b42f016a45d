//! What reads a file: each construct has a function of it, in the module of its kind.
#![tactic(auto)]

use std::alloc::Global;

/// What reads the imports, the definitions and the statements of one file.
#[derive(Clone, Copy)]
pub(crate) struct StmtReader {
    pub(crate) alloc: Global,
    pub(crate) file: u32,
}
