//! The text of a package's pairs: a line for each send and the receive that gets its message.
//!
//! - [`pairs_text`]: the text, as `main A 3:16 -> B 4:24`.
//! - [`worked_pairs_have_these_texts`]: worked texts.
//!
//! `specs/PairText.antt` says what the text is, as a list of characters; `specs/Worked.antt` has the worked ones.
#![tactic(auto)]

mod laws;
mod lines;
mod names;
mod places;

pub use laws::worked_pairs_have_these_texts;
pub use lines::pairs_text;
