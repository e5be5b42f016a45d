//! Steps over the tokens at the front of a list, as all parsers make them.
//!
//! - [`Missing`] and [`optional`]: what was asked for does not stand there.
//! - [`place`], [`sign`], [`after_sign`], [`key`], [`after_key`], [`int`] and [`word`]: the steps (`specs/Tokens.antt`).
#![tactic(auto)]

mod steps;

pub use steps::{Missing, after_key, after_sign, int, key, optional, place, sign, word};
