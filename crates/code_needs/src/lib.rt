//! What code needs of types, as laws over `stack_code`: which needs and which tests of numbers decide whether a place holds.
//!
//! - [`Kind`]: the kinds of shapes that rows name.
//! - [`needs_decide_rows`]: the operations, row by row.
//! - [`needs_decide_places`]: the places of a unit.
//! - [`needs_decide_code`]: the places of a code, with what its workers say to one another.
//! - [`needs_decide_fields`]: the fields beside instructions and maps; [`needs_decide_all`]: a whole code.
//!
//! The definitions are files of `specs/`:
//!
//! - `Needs`: a need as data, and what it says; `Combining`: lists of needs, put together.
//! - `RowNeeds`: the needs of each operation; `Stacks`: how many operands it takes, and whether it gives a result.
//! - `PlaceNeeds`: the needs of a place in its unit, and its tests of numbers; `CodeNeeds`: those of a place of a code;
//!   `FieldNeeds`: those of its fields.
//! - `Laws`.
#![tactic(auto)]

mod kind;
mod laws;

pub use kind::Kind;
pub use laws::{
    needs_decide_all, needs_decide_code, needs_decide_fields, needs_decide_places,
    needs_decide_rows,
};
