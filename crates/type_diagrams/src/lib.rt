//! Types as diagrams: for each kind of shapes a decision over the mark and the atoms, kept as shared
//! nodes, so that equal conditions have one number.
//!
//! - [`Diagrams`]: diagrams by their numbers. `of` makes that of a type, `union`, `inter` and `diff` those of
//!   two; `nodes`, `root` and `paths` read the decisions of a diagram, `has_simple_shape`, `simple_shape` and
//!   `simple_type` its simple shapes, and `is_nothing` tells whether it has any shape.
//! - [`Kind`]: the five kinds of shapes that atoms speak of; [`KINDS`]: all of them.
//! - [`Node`] and [`MARK`]: a step of a decision, and the number that stands for the mark; [`FALSE`] and
//!   [`TRUE`]: the numbers of the decisions that take no step.
//! - [`Path`]: a way through a decision to true.
//! - [`Member`] and [`Turn`]: what a table tells of questions, and what is said of a path against it;
//!   [`Finding`] and [`look_up`]: what it tells, with the shape that is kept; [`MOST_QUESTIONS`] and
//!   [`MOST_ARROWS`]: the limits of a call.
//! - [`Projection`]: what is said of the parts of a path's shapes; [`Context`]: what a call that settles a path is
//!   given.
#![tactic(auto)]

mod context;
mod diagrams;
mod finding;
mod kind;
mod merge;
mod node;
mod nodes;
mod operation;
mod path;
mod projection;
mod simple;
mod simple_shape;
mod simple_type;
mod turn;

pub use context::Context;
pub use diagrams::Diagrams;
pub use finding::{Finding, look_up};
pub use kind::{KINDS, Kind};
pub use node::{MARK, Node};
pub use nodes::{FALSE, TRUE};
pub use path::Path;
pub use projection::Projection;
pub use turn::{MOST_ARROWS, MOST_QUESTIONS, Member, Turn};
