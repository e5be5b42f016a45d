//! Decides questions about types.
//!
//! - [`Decider`]: types over atoms, and the questions about them; it is a `Types` of `type_model`.
//! - [`holds`]: whether a shape is in a type. [`type_of`]: a type with the shapes of a diagram.
//! - [`Questions`]: decides whether diagrams have shapes. [`Entry`] and [`Table`]: what is kept of questions.
//! - [`Settles`]: what settles the paths of each kind of shapes; [`Calls`]: the calls that do.
#![tactic(auto)]

mod apply;
mod asking;
mod basic;
mod call;
mod calls;
mod decider;
mod giving;
mod held;
mod keys;
mod member;
mod projecting;
mod questions;
mod results;
mod settles;
mod table;
mod types;
mod way;
mod writing;

pub use call::Call;
pub use calls::Calls;
pub use decider::Decider;
pub use held::Held;
pub use member::holds;
pub use questions::Questions;
pub use settles::Settles;
pub use table::{Entry, Table};
pub use way::Way;
pub use writing::type_of;
