//! The needs of matches, met: a call for each.
//!
//! What it means that a need is met is said in `check_words` (`specs/Branches`); what the calls change is the work of a `Checker` of
//! `check_work`. Each does nothing where the work has stopped, and else notes what came of it. Where the parts that it needs aren't
//! there, which no table of needs brings about, it is as if memory were wanted.
//!
//! - [`begins_match`]: a match, which may be on a variable.
//! - [`has_pattern`]: a pattern of the clause to come (`specs/Patterns`).
//! - [`begins_clause`], [`ends_clause`]: what is known in a clause (`specs/Clauses`), and the clause.
//! - [`makes_match`]: the match, and what is known behind it (`specs/Ends`).
#![tactic(auto)]

mod clauses;
mod ends;
mod matches;
mod names;
mod patterns;

pub use clauses::begins_clause;
pub use ends::makes_match;
pub use matches::{begins_match, ends_clause};
pub use patterns::has_pattern;
