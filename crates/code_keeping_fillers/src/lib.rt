//! What steps of well-typed code keep that store into lists, whose gaps are filled, as laws: they are stated in `specs/Laws`.
#![tactic(auto)]

mod laws;

pub use laws::item_stores_are_done;
