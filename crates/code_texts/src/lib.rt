//! The text of a code: a line for each instruction.
//!
//! - [`code_text`]: the text, as `0 Tick`, `1 Const 0` and so on.
//! - [`worked_codes_have_these_texts`]: worked texts.
//!
//! `specs/CodeText.antt` says what the text is, as a list of characters; `specs/Worked.antt` has the worked ones.
#![tactic(auto)]

mod instructions;
mod laws;
mod lines;

pub use laws::worked_codes_have_these_texts;
pub use lines::code_text;
