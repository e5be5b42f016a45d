//! What fills the gaps of lists: the fillers of the places of list atoms.
//!
//! `specs/Candidates.antt` says what is known of a type before it is known which lists can be filled, and `specs/Marks.antt` what it
//! means that marks tell this. A law: where no round changes the marks any more, the fillers that they choose are exact.
#![tactic(auto)]

mod candidate;
mod laws;

pub use candidate::Candidate;
pub use laws::marks_that_stay_are_exact;
