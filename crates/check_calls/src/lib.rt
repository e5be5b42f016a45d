//! Calls, as far as types alone are looked at.
//!
//! What calls need is said in `check_words` (`specs/Calls`). The calls here are the parts that look at types and signatures alone, in
//! every state of a checker over the same atoms.
//!
//! - [`function_takes`], [`parameter`]: how many arguments a function takes, and of which types.
//! - [`pick`]: the method of a name that a value has.
//! - [`LibraryResult`], [`result_of`], [`is_push`]: what a call of the library gives and stores, as data (`specs/Results`).
#![tactic(auto)]

mod picking;
mod results;
mod signatures;

pub use picking::pick;
pub use results::{LibraryResult, is_push, result_of};
pub use signatures::{function_takes, parameter};
