//! What a call that settles a path is given.

use std::alloc::Global;
use type_model::TypeEnv;

/// Where the call keeps shapes, the atoms, and the table of questions that it asks.
#[derive(Drop)]
pub struct Context<'a, M> {
    pub alloc: Global,
    pub env: &'a TypeEnv,
    pub m: &'a M,
}
