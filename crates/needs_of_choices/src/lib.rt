//! The needs of constructors that look at what is chosen, met: a call for each.
//!
//! What it means that a need is met is said in `check_words`; what the calls change is the work of a `Checker` of `check_work`. Each
//! does nothing where the work has stopped, and else notes what came of it. Where the parts that it needs aren't there, which no table
//! of needs brings about, it is as if memory were wanted.
//!
//! - [`chooses_list`], [`chooses_mapping`]: which constructor choice is meant.
//! - [`expects_member`], [`is_member`]: members of mappings, by their keys in what was chosen.
#![tactic(auto)]

mod choosing;
mod fields;
mod keyed;
mod member_wants;

pub use choosing::{chooses_list, chooses_mapping};
pub use keyed::is_member;
pub use member_wants::expects_member;
