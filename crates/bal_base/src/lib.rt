//! Plain data that every crate of the compiler speaks of.
//!
//! - [`Text`] and [`Name`]: shared texts, seen as their lists of code points.
//! - [`Memory`], [`Failed`] and [`Stop`]: want of memory, a failed call on the outside, and the two ways
//!   in which a call stops.
//! - [`Row`]: lists that are made once and then read; [`Numbers`], [`Ring`], [`AtomList`], [`Bytes`],
//!   [`NameList`] and [`Events`] by name.
//! - [`MOST_FILE_BYTES`], [`MOST_ATOMS`] and [`MOST_NESTING`]: limits that several crates keep.
//! - [`Place`] and [`line_column`]: places in a source file.
//! - [`Shape`] and its parts: finite values as types see them.
//! - [`FaultCode`], [`Kept`], [`Fault`] and [`Refusal`]: why a source program is refused.
//! - [`Token`] and its kinds: the words and signs of a source file.
#![tactic(auto)]

mod fault;
mod limits;
mod place;
mod row;
pub mod shape;
mod stop;
mod text;
mod token;

pub use fault::{Event, Fault, FaultCode, Kept, LimitKind, Refusal};
pub use limits::{MOST_ATOMS, MOST_FILE_BYTES, MOST_NESTING};
pub use place::{Place, line_column};
pub use row::{AtomList, Bytes, Events, NameList, Numbers, Ring, Row};
pub use shape::{Case, Fields, Graph, Shape, Shapes};
pub use stop::{Failed, Memory, Stop};
pub use text::{Name, Text};
pub use token::{Keyword, Sign, Token, TokenKind};
