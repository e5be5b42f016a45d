//! Functions, errors and futures: whether a path of one of these kinds has a shape, asked of a table of
//! questions about the parts.
//!
//! - [`err_shape`]: a shape of an error path, by one question about the detail.
//! - [`fut_shape`]: a shape of a future path, by one question about a result for each unwanted atom.
//! - [`fut_parts`]: what stands among the results of a future path's shapes.
//! - [`fun_shape`]: a shape of a function path, by questions about the arguments and results of pairs, one
//!   pair for each unwanted arrow.
//! - [`arrow_of`]: what an arrow takes and gives, by the number of its atom.
#![tactic(auto)]

mod arrows;
mod errors;
mod functions;
mod futures;
mod pairs;
mod parts;
mod questions;
mod results;

pub use arrows::{Arrow, arrow_of};
pub use errors::err_shape;
pub use functions::fun_shape;
pub use futures::fut_shape;
pub use results::fut_parts;
