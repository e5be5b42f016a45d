//! What well-typed code keeps, each step of it, as laws: they are stated in `specs/Laws`.
#![tactic(auto)]

mod laws;

pub use laws::{code_is_kept, library_calls_are_done, well_typed_code_is_safe};
