//! Values at run time, and what types see of them.
//!
//! - [`Value`]: an operand, a variable's or a member's value; structures, errors and functions stand in a heap, by
//!   their numbers.
//! - [`PanicName`]: the panics that the language names.
//! - [`Filler`] and [`FillerList`]: what fills a gap in a list.
//! - [`Tests`]: whether values of an atom belong to a type, and the fillers of its places, in tables.
//! - [`Natives`], with [`Native`] and [`NativeFault`]: the operations that are no instructions, as those of the library.
//!
//! `specs/Heap.antt` has the heap, `specs/Stands.antt` what a value stands for and belongs to, `specs/Exact.antt` when
//! a table is exact, and `specs/Meaning.antt` what the operations of natives mean.
#![tactic(auto)]

mod filler;
mod laws;
mod native;
mod panics;
mod tests;
mod value;

pub use filler::{Filler, FillerList};
pub use laws::{belonging_is_stable, shape_is_one};
pub use native::{Native, NativeFault, Natives};
pub use panics::PanicName;
pub use tests::Tests;
pub use value::Value;
