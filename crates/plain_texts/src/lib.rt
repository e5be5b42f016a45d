//! Texts of values, as plain programs over what a run holds.
//!
//! - [`text_of`] and [`texts_of`]: texts of values, as they are printed.
#![tactic(auto)]

mod texts;

pub use texts::{text_of, texts_of};
