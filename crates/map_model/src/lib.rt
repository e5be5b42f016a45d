//! The maps of lowered code, as functions of the tree, and the law that they are typed. They are stated in `specs/Maps` and `specs/Laws`.
#![tactic(auto)]

mod laws;

pub use laws::written_maps;
