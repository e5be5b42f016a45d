//! What code needs of types, where a question wants an atom of its own: mappings with a key, and what functions give
//! to arguments.
//!
//! - [`QuestionLimit`]: why such a question isn't answered.
//! - [`has_field`]: whether all shapes of a type are mappings that have a key.
//! - [`gives`]: whether no function of a type fails at arguments, and all that they give is in a type.
//! - [`gives_future`]: whether no function of a type fails at arguments, and futures of what they give are in a type.
//! - [`add_defs`], [`below`]: atoms that are added, and what is asked of them, for further questions.
//! - [`answers_are_kept`]: needs are met or not as before where atoms are added.
//!
//! Each call keeps the atoms that are there and adds one or two behind them; `specs/Limits.antt` says which limits are passed,
//! `specs/Added.antt` which atoms are added, `specs/FutureNeeds.antt` both of futures, and `specs/Both.antt` what an answer
//! tells of two needs.
#![tactic(auto)]

mod adding;
mod applications;
mod fields;
mod futures;
mod laws;
mod limits;

pub use adding::{add_defs, below};
pub use applications::gives;
pub use fields::has_field;
pub use futures::gives_future;
pub use laws::answers_are_kept;
pub use limits::QuestionLimit;
