//! Maps of lowered code, as laws: the types of the operands at each place are the points of the way of types through the tree. They are
//! stated in `specs/Laws`.
#![tactic(auto)]

mod laws;

pub use laws::typed_pieces;
