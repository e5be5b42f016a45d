//! The texts of what the compiler reports.
//!
//! - [`shape_text`]: the text of a shape.
//! - [`refusal_text`]: the text of a refusal, with its place, its code and what shows it; `events` writes the events of
//!   workers.
//!
//! `specs/ShapeText.antt`, `specs/RefusalText.antt` and `specs/EventText.antt` say what the texts are, as lists of
//! characters.
#![tactic(auto)]

mod events;
mod refusals;
mod shapes;

pub use refusals::refusal_text;
pub use shapes::shape_text;
