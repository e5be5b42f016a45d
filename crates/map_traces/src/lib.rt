//! The operands of lowered code, as a walk over the tree tells them: a trace of events, each written in constant time, that says which
//! types wait at each place. The maps of the code are what it comes to when it is played back.
//!
//! - [`Trace`] and [`Event`]: what was told; [`Entry`]: a type, with a reference to what has it; [`Around`]: the types that are known
//!   without looking at the tree.
//! - [`expr`], [`exprs`], [`stmt`], [`stmts`] and [`unit`]: what trees tell.
//! - [`traced_maps`]: the law that what they tell is what the maps of `map_model` say.
//!
//! `specs/Events.antt` says what a trace means, and `specs/Trees.antt` what each construct tells.
#![tactic(auto)]

mod constructs;
mod entry;
mod laws;
mod loops;
mod matches;
mod trace;
mod updates;
mod walk_exprs;
mod walk_stmts;
mod walk_units;

pub use entry::{Around, Entry};
pub use laws::traced_maps;
pub use trace::{Event, Trace};
pub use walk_exprs::{expr, exprs};
pub use walk_stmts::{stmt, stmts};
pub use walk_units::unit;
