//! What a call is given.

use std::alloc::Global;
use type_model::TypeEnv;

/// What a call for a question is given, and with how many entries of the table it begins.
#[derive(Drop)]
pub struct Call<'a, S> {
    pub alloc: Global,
    pub settles: &'a S,
    pub env: &'a TypeEnv,
    pub first: u32,
    pub start: usize,
}
