//! What an answer of the verifier says of a code, and laws of it.
//!
//! - [`places_decide`]: a place holds exactly where its numbers pass and each of its needs is met.
//! - [`shown_places_break`]: the first place that is shown to break a rule is the first one that does.
//! - [`verified_is_not_bad`]: what is verified has no bad place.
//!
//! `specs/Showing.antt` says what the numbers and the needs of a place are, the fields at place 0 included, and what a shape shows
//! of it; `specs/Verifying.antt` what each answer says: that code is verified, which place is bad, and which limit stopped it.
#![tactic(auto)]

mod laws;

pub use laws::{places_decide, shown_places_break, verified_is_not_bad};
