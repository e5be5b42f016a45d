//! What a run is made of, as definitions: what each operation comes to, on values, structures, the library, strands and
//! workers. Typed trees and code are two machines over this one table.
//!
//! The definitions, in the order in which a reader needs them, are files of `specs/`:
//!
//! - `Limits`; `Rows`, the words of which rows are put together; `Levels`, numbering level by level.
//! - `Fillers` and `Stores`, `Copies`, `Equality`, `Strings`, `Texts`: operations on values, and `Library`, its calls.
//! - `Common`, what the frames of a run share; `Strands`, who ends and who wakes; `Messages` and `Waits`; `ProgramFacts`, what is
//!   known of the program; `Effects`, what an operation comes to for a run.
//! - `Operands`, `ValueRows`, `StructureRows`, `CallRows`, and `Performs`, the table of operations; `Local`, how an
//!   operation begins in a frame.
//! - `Cases`, worked cases; `Laws`.
//!
//! Beside them stand
//!
//! - [`operations_have_one_effect`], over a [`Meaning`] of natives, [`library_answers_once`] and
//!   [`levels_have_no_twins`]: the laws.
//! - [`definitions_come_to_cases`]: the worked cases.
//! - [`levels`], [`distinct`] and [`set_item`]: plain programs of a copy's numbering and of a store into a list.
#![tactic(auto)]

mod cases;
mod items;
mod laws;
mod numbering;

pub use cases::definitions_come_to_cases;
pub use items::set_item;
pub use laws::{Meaning, levels_have_no_twins, library_answers_once, operations_have_one_effect};
pub use numbering::{distinct, levels};
