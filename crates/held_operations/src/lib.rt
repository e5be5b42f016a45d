//! Operations as trees hold them: with references in place of copies, and which ones each construct does.
//!
//! - [`Op`]: operations; [`TestedType`]: the types that they test for.
//!
//! `specs/Operation.antt` says which operation of the definitions an [`Op`] stands for, and `specs/Constructs.antt` is the
//! table of the constructs that evaluate all their operands: which operations each then does, one after another.
#![tactic(auto)]

mod op;

pub use op::{Op, TestedType};
