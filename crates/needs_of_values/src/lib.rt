//! The needs of names, literals, operators and conditions, met: a call for each.
//!
//! What it means that a need is met is said in `check_words`; what the calls change is the work of a `Checker` of `check_work`. Each
//! does nothing where the work has stopped, and else notes what came of it. Where the parts that it needs aren't there, which no table
//! of needs brings about, it is as if memory were wanted.
//!
//! - [`fails`], [`is_wanted`], [`drops_want`]: what is wanted of parts. [`describes`], [`widens`], [`wants_result`],
//!   [`wants_error_too`]: what is wanted of parts to come.
//! - [`gives_named`], [`gives_literal`], [`encloses`]: names, literals, and parentheses.
//! - [`decides`]: what an operator works on.
//! - [`splits`], [`switches`]: conditions, one way of which is entered, and then the other one. [`turns`], [`conjoins`],
//!   [`disjoins`]: those that are put together of others. [`tests`]: tests of types.
//! - [`chooses`], [`fills_nil`]: values of which one is chosen.
#![tactic(auto)]

mod choosing;
mod conditions;
mod deciding;
mod names;
mod parts;
mod reading;
mod shapes;
mod testing;
mod truths;
mod wanting;
mod wants;

pub use choosing::{chooses, fills_nil};
pub use conditions::{splits, switches};
pub use deciding::decides;
pub use names::gives_named;
pub use parts::{encloses, gives_literal};
pub use testing::tests;
pub use truths::{conjoins, disjoins, turns};
pub use wanting::{describes, wants_error_too, widens};
pub use wants::{drops_want, fails, is_wanted, wants_result};
