//! Laws of the tables of checking: the parts that a line speaks of by their order are there, and are its own.
//!
//! The tables say in data what each construct needs, and `check_words` what it means that a need is met: it takes parts, wanted types
//! and other open things from the top of lists, and leaves others there. Nothing but their order says which are meant. Here it is stated,
//! and proved for all trees, that the order is right.
//!
//! The definitions, in the order in which a reader needs them, are files of `specs/`:
//!
//! - `Heights`: how many of each stand above what was there.
//! - `Effects`: how many of each a need takes and leaves.
//! - `Positions`: where one state stands so far above another.
//! - `Laws`, `StmtLaws` and `FunctionLaws`.
//!
//! Beside them stand the laws: [`effects_are_kept`] of each need, [`positions_are_kept`] of expressions and actions,
//! [`stmt_positions_are_kept`] of statements, blocks and workers, and [`functions_end_whole`] of functions.
#![tactic(auto)]

mod laws;

pub use laws::{
    effects_are_kept, functions_end_whole, positions_are_kept, stmt_positions_are_kept,
};
