//! What typed trees and code do: one operation for each thing that an evaluation does with values, with
//! everything resolved.
//!
//! - [`Operation`]: the operations.
//! - [`Constant`], [`LibraryCall`] and [`Awaited`]: what they name besides numbers and types.
//! - [`LibraryCall::number`]: the calls of the library by their numbers.
//!
//! `specs/Typing.antt` is the table of typing rows, `OpTyped`: which types the operands of an operation may have, and
//! which results it then gives. `specs/LibraryTyping.antt` has the rows of the library, `specs/Kinds.antt` the kinds of
//! shapes that rows speak of, and `specs/Rows.antt` the words that they are put together of. `specs/Uses.antt` says which
//! atom or unit an operation uses, and `specs/Talk.antt` what it says to, or hears from, the workers of its function.
#![tactic(auto)]

mod library;
mod operation;

pub use library::LibraryCall;
pub use operation::{Awaited, Constant, Operation};
